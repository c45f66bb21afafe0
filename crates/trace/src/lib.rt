// The judging of a whole lent trace: its report's bytes in a lent slice.
#![tactic(auto)]

ghost use Rattle.std.specs.Prelude.{◌≡◌, ◌+◌, ◌*◌, ◌≤◌, length, take};
ghost use Rattle.history.specs.Replies.{most_lines};
ghost use Rattle.history.specs.Report.{end_line};
ghost use Rattle.classes.specs.Supers.{all_classes};
ghost use Rattle.book.specs.Layout.{whole};
ghost use Rattle.book.specs.Threads.{lines_in, closed_in};
ghost use Rattle.tables.specs.Tables.{tables};
ghost use Rattle.trace.specs.Whole.{leaves, whole_outcome};
ghost use Rattle.trace.specs.Running.{put_fitting, scratch_size, Few, number_in, SumsFit, PassesOn, Measured};

use rows::Number;
use run::{Passed, Stop};

// Why no report was written. None of it is a refusal: that of a line is part of the report.
#[derive(Clone, Copy, Debug, PartialEq, Eq)]
pub enum Unreported {
    // The slice is short for the report, which has so many bytes.
    Needs(usize),
    // The thread book or the class table is short.
    ShortTables,
}

// Findings are put here before they are copied.
const SCRATCH: usize = 4096;

// A run so far: how many bytes of the trace are taken, how many findings there are, and how many bytes they take.
#[derive(Clone, Copy)]
struct Run {
    at: usize,
    findings: usize,
    bytes: usize,
}

// The number that is printed in the last line: that of the refusal, or 0.
fn number_of(stop: Stop) -> u8
    ensures { result ≡ number_in stop }
{
    match stop {
        Stop::Refused(k) => k.number(),
        _ => 0,
    }
}

// The first n bytes of s at a place, where there is room.
fn put_front(out: &mut [u8], at: usize, s: &[u8], n: usize)
    requires { (at + n ≤ scratch_size * most_lines) × (n ≤ length s.now) }
    ensures { out.new ≡ put_fitting out.old at (take n s.now) }
{
    if out.len() < at + n {
        return;
    }
    out[at..at + n].copy_from_slice(&s[..n]);
}

// With what one call of the loop has put into `scratch`, copied behind the findings before where there is room.
fn with_passed(
    run: Run,
    passed: Passed,
    trace: &[u8],
    scratch: &[u8; SCRATCH],
    out: &mut [u8],
) -> Run
    requires { SumsFit trace.now run passed }
    ensures { PassesOn run passed scratch.now out.old result out.new }
{
    put_front(out, run.bytes, scratch, passed.put);
    Run {
        at: run.at + passed.taken,
        findings: run.findings + passed.findings,
        bytes: run.bytes + passed.put,
    }
}

// The last line, behind the findings where there is room; how long the report is.
fn put_last(run: Run, stop: Stop, book: &[u64], out: &mut [u8]) -> usize
    requires { (lines_in book.now ≤ most_lines) × Few run most_lines }
    ensures { (result ≡ run.bytes + length (end_line (closed_in book.now) (lines_in book.now) (number_in stop) run.findings)) × (out.new ≡ put_fitting out.old run.bytes (end_line (closed_in book.now) (lines_in book.now) (number_in stop) run.findings)) }
{
    let closed = book::is_closed(book);
    let lines = book::lines_of(book) as u32;
    let refusal = number_of(stop);
    let findings = run.findings as u32;
    let width = report::end_width(closed, lines, refusal, findings);
    report::put_end(out, run.bytes, closed, lines, refusal, findings);
    run.bytes + width
}

// The report of the trace at the front of `out` where it has room there; how long it is.
fn report_into(
    trace: &[u8],
    rows: &mut [Number],
    marks: &mut [u64],
    pins: &mut [Number],
    pinmarks: &mut [u64],
    book: &mut [u64],
    classes: &mut [Number],
    out: &mut [u8],
) -> usize
    requires { (whole ≤ length book.old) × (all_classes ≤ length classes.old) }
    ensures { Measured (tables rows.old marks.old pins.old pinmarks.old book.old classes.old) trace.now out.old result (tables rows.new marks.new pins.new pinmarks.new book.new classes.new) out.new }
{
    judge::start(rows, marks, pins, pinmarks, book, classes);
    let mut scratch = [0; SCRATCH];
    let mut so_far = Run {
        at: 0,
        findings: 0,
        bytes: 0,
    };
    // No range counts the pieces: how far one goes shows once it is judged.
    loop {
        let at = so_far.at;
        let passed = run::run_lines(
            &trace[at..],
            true,
            rows,
            marks,
            pins,
            pinmarks,
            book,
            classes,
            &mut scratch,
        );
        so_far = with_passed(so_far, passed, trace, &scratch, out);
        let stop = passed.stop;
        match stop {
            Stop::Full => {}
            _ => return put_last(so_far, stop, book, out),
        }
    }
}

// Judges all lines of a trace from a start, and writes the report at the start of `out`, findings, then the `end` line: how many bytes it has.
// Where `out` is short nothing is written there; the tables, its work room, are left as the run left them. Over a short book or class table nothing is touched.
pub fn judge_trace(
    trace: &[u8],
    rows: &mut [Number],
    marks: &mut [u64],
    pins: &mut [Number],
    pinmarks: &mut [u64],
    book: &mut [u64],
    classes: &mut [Number],
    out: &mut [u8],
) -> Result<usize, Unreported>
    ensures { leaves result (tables rows.new marks.new pins.new pinmarks.new book.new classes.new) out.new ≡ whole_outcome (tables rows.old marks.old pins.old pinmarks.old book.old classes.old) trace.now out.old }
{
    if book.len() < book::WHOLE {
        return Err(Unreported::ShortTables);
    }
    if classes::is_short(classes) {
        return Err(Unreported::ShortTables);
    }
    let mut unused = [0];
    let w = report_into(
        trace,
        rows,
        marks,
        pins,
        pinmarks,
        book,
        classes,
        &mut unused,
    );
    if out.len() < w {
        return Err(Unreported::Needs(w));
    }
    report_into(trace, rows, marks, pins, pinmarks, book, classes, out);
    Ok(w)
}
