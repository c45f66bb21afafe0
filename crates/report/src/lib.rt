// What the program prints: the findings of a line, the last line of a report, and the leaks behind it.
#![tactic(auto)]

ghost use Rattle.std.specs.Prelude.{◌≡◌, true, false, suc, ◌+◌, ◌<◌, ◌≤◌, length, take};
ghost use Rattle.numbers.specs.Decimal.{digits};
ghost use Rattle.numbers.specs.Writing.{Puts};
ghost use Rattle.history.specs.Report.{shown_finding, end_line};
ghost use Rattle.history.specs.Leaks.{shown_leak};
ghost use Rattle.report.specs.Shown.{most_shown, longest_leak, leak, shown_findings, shown_answer, field_with, three_fields, end_head, Fills};

use answers::{Answer, Findings};
use history::Finding;
use lines::{LINE_FEED, TAB};
use words::Handle;

// The findings of a line have at most so many bytes.
pub const MOST_SHOWN: usize = 504;

// A leak has at most so many.
pub const LONGEST_LEAK: usize = 89;

// There is room for w bytes at a place of a buffer of `len`.
fn has_room(len: usize, at: usize, w: usize) -> bool
    ensures { (result ≡ true → at + w ≤ len) × (result ≡ false → len < at + w) }
{
    w <= len && at <= len - w
}

// How long a number is with the byte after it.
fn field_width(n: Handle) -> usize
    ensures { (result ≡ suc (length (digits n))) × (result ≤ 21) }
{
    numbers::width(n) + 1
}

// How long the last three fields of a line are.
fn three_width(a: Handle, b: Handle, c: Handle) -> usize
    ensures { (result ≡ length (three_fields a b c)) × (result ≤ 63) }
{
    field_width(a) + field_width(b) + field_width(c)
}

fn finding_width(f: Finding) -> usize
    ensures { (result ≡ length (shown_finding f)) × (result ≤ 84) }
{
    field_width(f.line as Handle) + three_width(f.rule as Handle, f.place as Handle, f.thing)
}

// A number and the byte after it, where there is room; what is past them.
fn put_field(d: &mut [u8], at: usize, n: Handle, after: u8) -> usize
    requires { at + length (field_with n after) ≤ length d.old }
    ensures { Fills d.old at (field_with n after) result d.new }
{
    match numbers::write(d, at, n) {
        Some(p) => {
            d[p] = after;
            p + 1
        }
        None => at,
    }
}

fn put_three(d: &mut [u8], at: usize, a: Handle, b: Handle, c: Handle) -> usize
    requires { at + length (three_fields a b c) ≤ length d.old }
    ensures { Fills d.old at (three_fields a b c) result d.new }
{
    let i = put_field(d, at, a, TAB);
    let j = put_field(d, i, b, TAB);
    put_field(d, j, c, LINE_FEED)
}

fn put_finding(d: &mut [u8], at: usize, f: Finding) -> usize
    requires { at + length (shown_finding f) ≤ length d.old }
    ensures { Fills d.old at (shown_finding f) result d.new }
{
    let i = put_field(d, at, f.line as Handle, TAB);
    put_three(d, i, f.rule as Handle, f.place as Handle, f.thing)
}

// The first `count` of them.
fn listed(found: &[Finding; 6], count: usize) -> &[Finding]
    ensures { (result.now ≡ take count found.now) × (length result.now ≤ 6) }
{
    &found[..count.min(found.len())]
}

fn width_of(found: Findings) -> usize
    ensures { (result ≡ length (shown_findings found)) × (result ≤ most_shown) }
{
    let mut w = 0;
    for f in listed(&found.found, found.count) {
        w += finding_width(*f);
    }
    w
}

// How long the findings of an answer are.
pub fn findings_width(answer: Answer) -> usize
    ensures { (result ≡ length (shown_answer answer)) × (result ≤ most_shown) }
{
    match answer {
        Ok(found) => width_of(found),
        Err(_) => 0,
    }
}

// The findings of a line, where there is room; what is past them.
fn put_each(d: &mut [u8], from: usize, found: Findings) -> usize
    requires { from + length (shown_findings found) ≤ length d.old }
    ensures { Fills d.old from (shown_findings found) result d.new }
{
    let mut at = from;
    for f in listed(&found.found, found.count) {
        at = put_finding(d, at, *f);
    }
    at
}

// The findings of an answer, where there is room; what is past them.
fn put_answer(d: &mut [u8], from: usize, answer: Answer) -> usize
    requires { from + length (shown_answer answer) ≤ length d.old }
    ensures { Fills d.old from (shown_answer answer) result d.new }
{
    match answer {
        Ok(found) => put_each(d, from, found),
        Err(_) => from,
    }
}

// Writes the findings of an answer at a place; what is past them, or none where there is no room and nothing is written.
pub fn put_findings(out: &mut [u8], at: usize, answer: Answer) -> Option<usize>
    ensures { Puts out.old at (shown_answer answer) result out.new }
{
    if has_room(out.len(), at, findings_width(answer)) {
        Some(put_answer(out, at, answer))
    } else {
        None
    }
}

// The bytes s, where there is room; what is past them.
fn put_bytes(d: &mut [u8], at: usize, s: &[u8]) -> usize
    requires { at + length s.now ≤ length d.old }
    ensures { Fills d.old at s.now result d.new }
{
    let end = at + s.len();
    d[at..end].copy_from_slice(s);
    end
}

// What stands before the numbers of the last line. A number for the refusal, 0 for none, as it is printed.
fn head_of(closed: bool, refusal: u8) -> &'static [u8]
    ensures { (result.now ≡ end_head closed refusal) × (length result.now ≤ 12) }
{
    if refusal != 0 {
        b"end\trefused\t"
    } else if closed {
        b"end\tclosed\t"
    } else {
        b"end\topen\t"
    }
}

// How long the last line is.
pub fn end_width(closed: bool, lines: u32, refusal: u8, printed: u32) -> usize
    ensures { (result ≡ length (end_line closed lines refusal printed)) × (result ≤ 75) }
{
    head_of(closed, refusal).len()
        + three_width(lines as Handle, refusal as Handle, printed as Handle)
}

// Writes the last line of a report at a place; what is past it, or none where there is no room and nothing is written.
// Any number is taken for a refusal, as `end_line` of history says.
pub fn put_end(
    out: &mut [u8],
    at: usize,
    closed: bool,
    lines: u32,
    refusal: u8,
    printed: u32,
) -> Option<usize>
    ensures { Puts out.old at (end_line closed lines refusal printed) result out.new }
{
    if has_room(out.len(), at, end_width(closed, lines, refusal, printed)) {
        let i = put_bytes(out, at, head_of(closed, refusal));
        Some(put_three(
            out,
            i,
            lines as Handle,
            refusal as Handle,
            printed as Handle,
        ))
    } else {
        None
    }
}

// How long a leak is.
pub fn leak_width(rule: Handle, thread: Handle, value: Handle, line: Handle) -> usize
    ensures { (result ≡ length (shown_leak (leak rule thread value line))) × (result ≤ longest_leak) }
{
    b"leak\t".len() + field_width(rule) + three_width(thread, value, line)
}

// Writes a leak at a place; what is past it, or none where there is no room and nothing is written.
pub fn put_leak(
    out: &mut [u8],
    at: usize,
    rule: Handle,
    thread: Handle,
    value: Handle,
    line: Handle,
) -> Option<usize>
    ensures { Puts out.old at (shown_leak (leak rule thread value line)) result out.new }
{
    if has_room(out.len(), at, leak_width(rule, thread, value, line)) {
        let i = put_bytes(out, at, b"leak\t");
        let j = put_field(out, i, rule, TAB);
        Some(put_three(out, j, thread, value, line))
    } else {
        None
    }
}
