// The judge for C and Rust: a start and one step over lent slices, the findings as numbers; a piece of many lines, the findings as bytes; the list of leaks; and a whole trace with its report.
#![tactic(auto)]

ghost use Rattle.std.specs.Prelude.{◌≡◌, List, ℕ, ◌+◌, ◌*◌, ◌≤◌, length, take, IfOk};
ghost use Rattle.answers.specs.Answer.{most_found};
ghost use Rattle.tables.specs.Tables.{tables};
ghost use Rattle.tables.specs.Stepping.{start_of};
ghost use Rattle.tables.specs.Listing.{list_of};
ghost use Rattle.trace.specs.Whole.{whole_outcome};
ghost use Rattle.exported.specs.Judged.{length_told, judges, judged};
ghost use Rattle.exported.specs.Listed.{Few, number_listed, tells_list, list_told};
ghost use Rattle.exported.specs.Pieced.{far_numbers, far_put, stop_told, tells_piece, piece_told};
ghost use Rattle.exported.specs.Told.{numbers, most_numbers, put_at, in_front, number_told, findings_in, tells, step_told};

use answers::{Answer, Findings};
use history::Finding;
use lines::refusal::Refusal;
use rows::Number;
use run::{Passed, Stop};
use trace::Unreported;
use words::Handle;

// The numbers of a finding, and of the most findings of a line.
const NUMBERS: usize = 4;

const MOST_NUMBERS: usize = 24;

// Told where there is no room for them.
const SHORT_FOUND: i32 = -100;

// The numbers that tell how far the judging of a piece came, and what is told where there is no room for them.
const FAR: usize = 3;

const SHORT_FAR: i32 = -101;

// Clears all rows, marks, book and class table.
pub fn weir_start(
    rows: &mut [Number],
    marks: &mut [u64],
    pins: &mut [Number],
    pinmarks: &mut [u64],
    book: &mut [u64],
    classes: &mut [Number],
)
    ensures { tables rows.new marks.new pins.new pinmarks.new book.new classes.new ≡ start_of (tables rows.old marks.old pins.old pinmarks.old book.old classes.old) }
{
    judge::start(rows, marks, pins, pinmarks, book, classes)
}

// The four numbers of a finding behind `at` others.
fn put(found: &mut [Handle], at: usize, finding: Finding)
    requires { at * numbers + numbers ≤ length found.old }
    ensures { found.new ≡ put_at found.old at finding }
{
    let first = at * NUMBERS;
    found[first] = finding.line as Handle;
    found[first + 1] = finding.rule as Handle;
    found[first + 2] = finding.place as Handle;
    found[first + 3] = finding.thing;
}

// The findings of a line, one behind another.
fn list(found: &mut [Handle], answer: Findings)
    requires { (answer.count ≤ most_found) × (most_numbers ≤ length found.old) }
    ensures { found.new ≡ in_front (take answer.count answer.found) found.old }
{
    for at in 0..answer.count {
        let finding = answer.found[at];
        put(found, at, finding);
    }
}

// The findings, and how many they are; or below zero the number given instead of the line.
fn tell(found: &mut [Handle], answer: Answer) -> i32
    requires { IfOk answer (λ f. f.count ≤ most_found) × (most_numbers ≤ length found.old) }
    ensures { (result ≡ number_told answer) × (found.new ≡ in_front (findings_in answer) found.old) }
{
    match answer {
        Ok(findings) => {
            list(found, findings);
            findings.count as i32
        }
        Err(k) => k.told(),
    }
}

// One line of the trace, all its bytes with the LF: below zero the number given instead of it, or how many findings it has.
// They are left at the front of `found`, line, rule, place and thing of each. Where `found` is short for the most that a line
// has, below 24 numbers, it is -100, and nothing is touched.
pub fn weir_step(
    line: &[u8],
    rows: &mut [Number],
    marks: &mut [u64],
    pins: &mut [Number],
    pinmarks: &mut [u64],
    book: &mut [u64],
    classes: &mut [Number],
    found: &mut [Handle],
) -> i32
    ensures { tells result (tables rows.new marks.new pins.new pinmarks.new book.new classes.new) found.new ≡ step_told (tables rows.old marks.old pins.old pinmarks.old book.old classes.old) line.now found.old }
{
    if found.len() < MOST_NUMBERS {
        return SHORT_FOUND;
    }
    let answer = judge::step(line, rows, marks, pins, pinmarks, book, classes);
    tell(found, answer)
}

// How far the judging of a piece came, at the front of `far`.
fn put_far(far: &mut [u64], passed: Passed)
    requires { far_numbers ≤ length far.old }
    ensures { far.new ≡ far_put passed far.old }
{
    far[0] = passed.taken as u64;
    far[1] = passed.put as u64;
    far[2] = passed.findings as u64;
}

// Why the judging of a piece stopped; below zero the number given instead of the line that it stopped before.
fn stop_told(stop: Stop) -> i32
    ensures { result ≡ stop_told stop }
{
    match stop {
        Stop::Refused(refusal) => refusal.told(),
        Stop::Full => 1,
        Stop::More => 0,
        Stop::End => 2,
    }
}

// Judges the lines of a piece of a trace, one after another, over the tables as they stand: as `weir_start` cleared them, or as the piece before left
// them. Where `ended` is not 0 the trace ends behind the piece. The findings are left at the front of `out`, as lines of the report; at the front of
// `far` how many bytes of the piece were taken, how many bytes of findings were put and how many findings these are. Told is why it stopped: 0 more
// is to be read, 1 `out` may have no room for the findings of one more line, 2 the trace is at its end, or below zero the number given instead of the
// line that it stopped before. Where `far` holds fewer than 3 numbers it is -101, and nothing is touched.
pub fn weir_piece(
    piece: &[u8],
    ended: u32,
    rows: &mut [Number],
    marks: &mut [u64],
    pins: &mut [Number],
    pinmarks: &mut [u64],
    book: &mut [u64],
    classes: &mut [Number],
    out: &mut [u8],
    far: &mut [u64],
) -> i32
    ensures { tells_piece result (tables rows.new marks.new pins.new pinmarks.new book.new classes.new) out.new far.new ≡ piece_told ended (tables rows.old marks.old pins.old pinmarks.old book.old classes.old) piece.now out.old far.old }
{
    if far.len() < FAR {
        return SHORT_FAR;
    }
    let passed = run::run_lines(
        piece,
        ended != 0,
        rows,
        marks,
        pins,
        pinmarks,
        book,
        classes,
        out,
    );
    put_far(far, passed);
    let stop = passed.stop;
    stop_told(stop)
}

// How many records were written, or below zero the number given instead.
fn number_listed(listed: Result<usize, Refusal>) -> i32
    requires { Few listed }
    ensures { result ≡ number_listed listed }
{
    match listed {
        Ok(n) => n as i32,
        Err(refusal) => refusal.told(),
    }
}

// The leaks after Z, rule, thread, value and making line of each, at the front of `leaks`, ordered by making line, then rule and row: how
// many there are, or below zero the number given instead, and then nothing is written. The tables are read alone.
pub fn weir_leaks(
    rows: &[Number],
    marks: &[u64],
    pins: &[Number],
    pinmarks: &[u64],
    book: &[u64],
    leaks: &mut [Number],
) -> i32
    ensures { (cs : List ℕ) → tells_list result leaks.new ≡ list_told (list_of (tables rows.now marks.now pins.now pinmarks.now book.now cs) leaks.old) }
{
    let listed = leaks::list(rows, marks, pins, pinmarks, book, leaks);
    number_listed(listed)
}

// How long the report is, written or not; 0 over a short book or class table.
fn length_told(reported: Result<usize, Unreported>) -> usize
    ensures { result ≡ length_told reported }
{
    match reported {
        Ok(n) => n,
        Err(Unreported::Needs(n)) => n,
        Err(Unreported::ShortTables) => 0,
    }
}

// Judges all lines of a trace from a start: how long the report is. It stands at the start of `out` where that is no shorter, else nothing
// is written there; the tables are left as the run left them. Over a short book or class table it is 0, which no report is long, and nothing is touched.
pub fn weir_judge(
    trace: &[u8],
    rows: &mut [Number],
    marks: &mut [u64],
    pins: &mut [Number],
    pinmarks: &mut [u64],
    book: &mut [u64],
    classes: &mut [Number],
    out: &mut [u8],
) -> usize
    ensures { judges result (tables rows.new marks.new pins.new pinmarks.new book.new classes.new) out.new ≡ judged (whole_outcome (tables rows.old marks.old pins.old pinmarks.old book.old classes.old) trace.now out.old) }
{
    let reported = trace::judge_trace(trace, rows, marks, pins, pinmarks, book, classes, out);
    length_told(reported)
}
