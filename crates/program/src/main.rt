// The judge program: reads a trace from standard input, judges what each read brought, and prints the report on standard output as it goes, and the leaks behind it where
// it is asked for them. What it needs does not grow with the trace.
#![tactic(auto)]

mod arguments; // arguments.rt: what the program is asked for
mod listing; // listing.rt: the leaks
mod streams; // streams.rt: standard input and standard output

ghost use Rattle.std.specs.Prelude.{◌≡◌, [], ◌+◌, ◌*◌, ◌-◌, ◌/◌, ◌≤◌, ◌<◌, length, min, take};
ghost use Rattle.numbers.specs.Writing.{put};
ghost use Rattle.history.specs.Replies.{most_lines};
ghost use Rattle.book.specs.Threads.{lines_in, closed_in};
ghost use Rattle.report.specs.Shown.{longest_leak};
ghost use Rattle.tables.specs.Tables.{tables};
ghost use Rattle.program.specs.Printing.{Newest, Due, HasRead, HasPrinted, Reported};
ghost use Rattle.program.specs.Progress.{buffer_size, most_findings, Few};
ghost use Rattle.program.specs.Running.{Unread, MoreRead, Fits, Turned, number_in, last_line, Finished, Ends, Good, RecordsLeft, LeaksLeft};

use arguments::Asked;
use lines::refusal::Refusal;
use rows::Number;
use run::{Passed, Stop};
use streams::Streams;

// The program lends so many reference and pin rows, and room for so many identities.
const REFERENCE_ROWS: usize = 1024;

const PIN_ROWS: usize = 256;

const IDENTITIES: usize = 1024;

const REFERENCE_NUMBERS: usize = REFERENCE_ROWS * rows::references::STRIDE;

const REFERENCE_MARKS: usize = REFERENCE_ROWS / rows::WORD;

const PIN_NUMBERS: usize = PIN_ROWS * rows::pins::STRIDE;

const PIN_MARKS: usize = PIN_ROWS / rows::WORD;

const BOOK_NUMBERS: usize = book::WHOLE;

const CLASS_NUMBERS: usize = lines::ranges::CLASSES as usize
    + IDENTITIES * classes::identities::NUMBERS;

// So many numbers of records are lent to the list of the leaks, a record for each row.
const LEAK_NUMBERS: usize = (REFERENCE_ROWS + PIN_ROWS) * leaks::NUMBERS;

// What is read stands in a buffer of this size, and so do the findings and the leaks to be written. It is four times what a pipe holds: the loop fills its guides anew for each piece.
const BUFFER: usize = 262144;

// So many leaks fit it, however long they are.
const PIECE: usize = BUFFER / report::LONGEST_LEAK;

// Why a run stops: a line was refused or the input is at its end, or a call failed.
#[derive(Clone, Copy)]
enum Why {
    Judged,
    Failed,
}

// A run so far: which bytes of the input buffer are unread, what has gone through the streams, how many findings there are,
// why a line was refused, if one was, and why the run stops, if it does.
#[derive(Clone, Copy)]
struct Run {
    from: usize,
    to: usize,
    streams: Streams,
    findings: usize,
    refusal: Option<Refusal>,
    stop: Option<Why>,
}

fn stopped(run: Run, why: Why) -> Run
    ensures { (result.stop ≡ Some why) × (result.streams ≡ run.streams) × (result.findings ≡ run.findings) × (result.refusal ≡ run.refusal) }
{
    let mut next = run;
    next.stop = Some(why);
    next
}

// Reads behind the first bytes of a buffer.
fn read_behind(
    rt: HostRuntime,
    streams: Streams,
    moved: &mut usize,
    buf: &mut [u8],
    rest: usize,
) -> Streams
    requires { Newest streams moved.old × (length buf.old ≡ buffer_size) × (rest < buffer_size) × Few streams 0 }
    ensures { HasRead streams (buffer_size - rest) result × Newest result moved.new × (take rest buf.new ≡ take rest buf.old) }
{
    streams::take_in(streams, moved, rt.stdin(), &mut buf[rest..])
}

// Prints the first bytes of a buffer.
fn print(rt: HostRuntime, streams: Streams, moved: &mut usize, out: &[u8], n: usize) -> Streams
    requires { Newest streams moved.old × (n ≤ length out.now) × Due streams (take n out.now) × Few streams n }
    ensures { HasPrinted streams n result × Newest result moved.new }
{
    streams::hand_over(streams, moved, rt.stdout(), &out[..n])
}

// Moves the unread bytes to the front and reads behind them.
fn read_more(rt: HostRuntime, run: Run, moved: &mut usize, buf: &mut [u8]) -> Run
    requires { (length buf.old ≡ buffer_size) × Unread run × Newest run.streams moved.old }
    ensures { MoreRead run buf.old result buf.new × Newest result.streams moved.new }
{
    let rest = run.to - run.from;
    pieces::shift(buf, run.from, run.to);
    let before = run.streams;
    let streams = read_behind(rt, before, moved, buf, rest);
    let mut next = run;
    next.streams = streams;
    if streams::is_unreadable(streams) {
        return stopped(next, Why::Failed);
    }
    next.from = 0;
    next.to = rest + (streams::bytes_read(streams) - streams::bytes_read(before));
    next
}

// What the loop has passed: its findings are written, so that none waits for the next line, and more is read where it asks for more.
fn turned(
    rt: HostRuntime,
    run: Run,
    passed: Passed,
    moved: &mut usize,
    buf: &mut [u8],
    out: &[u8; BUFFER],
) -> Run
    requires { (length buf.old ≡ buffer_size) × Fits run passed out.now × Newest run.streams moved.old }
    ensures { Turned run passed buf.old result buf.new × Newest result.streams moved.new }
{
    let before = run.streams;
    let streams = print(rt, before, moved, out, passed.put);
    let mut next = run;
    next.from = run.from + passed.taken;
    next.streams = streams;
    next.findings = run.findings + passed.findings;
    if streams::is_unwritable(streams) {
        return stopped(next, Why::Failed);
    }
    let stop = passed.stop;
    match stop {
        Stop::Refused(k) => {
            next.refusal = Some(k);
            stopped(next, Why::Judged)
        }
        Stop::Full => next,
        Stop::More => read_more(rt, next, moved, buf),
        Stop::End => stopped(next, Why::Judged),
    }
}

// The number that is printed in the last line: that of the refusal, or 0.
fn number_of(refusal: Option<Refusal>) -> u8
    ensures { result ≡ number_in refusal }
{
    match refusal {
        Some(k) => k.number(),
        None => 0,
    }
}

// The last line of the report at the front of the buffer, and how long it is.
fn put_last(run: Run, book: &[u64; BOOK_NUMBERS], out: &mut [u8; BUFFER]) -> usize
    requires { (lines_in book.now ≤ most_lines) × (run.findings ≤ most_findings) }
    ensures { (result ≡ length (last_line book.now run)) × (result ≤ buffer_size) × (out.new ≡ put out.old 0 (last_line book.now run)) }
{
    let closed = book::is_closed(book);
    let lines = book::lines_of(book) as u32;
    let findings = run.findings as u32;
    let refusal = number_of(run.refusal);
    let width = report::end_width(closed, lines, refusal, findings);
    report::put_end(out, 0, closed, lines, refusal, findings);
    width
}

// Prints the last line. Where a call failed there is none.
fn finish(
    rt: HostRuntime,
    run: Run,
    why: Why,
    moved: &mut usize,
    book: &[u64; BOOK_NUMBERS],
    out: &mut [u8; BUFFER],
) -> Streams
    requires { (run.stop ≡ Some why) × Finished book.now run × Newest run.streams moved.old }
    ensures { Ends book.now run result × Newest result moved.new }
{
    let streams = run.streams;
    match why {
        Why::Failed => streams,
        Why::Judged => {
            let n = put_last(run, book, out);
            print(rt, streams, moved, out, n)
        }
    }
}

// The records that fit the buffer go from `from` up to here.
fn piece_end(from: usize, count: usize) -> usize
    requires { from < count }
    ensures fits { (from < result) × (result ≤ count) × (longest_leak * (result - from) ≤ buffer_size) }
    ensures last { result ≡ min (from + buffer_size / longest_leak) count }
{
    from + usize::min(count - from, PIECE)
}

// Prints the first `count` records, a buffer of them after another. Where a call failed none follow.
fn print_leaks(
    rt: HostRuntime,
    before: Streams,
    moved: &mut usize,
    records: &[Number; LEAK_NUMBERS],
    count: usize,
    out: &mut [u8; BUFFER],
) -> Streams
    requires { Newest before moved.old × (Good before → RecordsLeft before records.now 0 count) }
    ensures { (result.leaks ≡ before.leaks) × Reported result }
{
    let mut streams = before;
    for from in (0..count).step_by(PIECE) {
        if streams::has_failed(streams) {
            return streams;
        }
        let to = piece_end(from, count);
        let n = listing::put_records(out, records, from, to);
        streams = print(rt, streams, moved, out, n);
    }
    streams
}

// The leaks behind the last line.
fn add_leaks(
    rt: HostRuntime,
    streams: Streams,
    moved: &mut usize,
    rows: &[Number; REFERENCE_NUMBERS],
    marks: &[u64; REFERENCE_MARKS],
    pins: &[Number; PIN_NUMBERS],
    pinmarks: &[u64; PIN_MARKS],
    book: &[u64; BOOK_NUMBERS],
    out: &mut [u8; BUFFER],
) -> Streams
    requires { Newest streams moved.old × LeaksLeft streams (tables rows.now marks.now pins.now pinmarks.now book.now []) }
    ensures { (result.leaks ≡ streams.leaks) × Reported result }
{
    let mut records = [0; LEAK_NUMBERS];
    let asked = streams::with_leaks(streams);
    let count = listing::list(asked, rows, marks, pins, pinmarks, book, &mut records);
    print_leaks(rt, streams, moved, &records, count, out)
}

// Judges the input until a line is refused, it is at its end or a call fails, and prints the report, and the leaks behind it where they are asked for. On an input without end it stops too: see
// specs/Progress.antt.
fn judge_all(
    rt: HostRuntime,
    leaks: bool,
    buf: &mut [u8],
    rows: &mut [Number; REFERENCE_NUMBERS],
    marks: &mut [u64; REFERENCE_MARKS],
    pins: &mut [Number; PIN_NUMBERS],
    pinmarks: &mut [u64; PIN_MARKS],
    book: &mut [u64; BOOK_NUMBERS],
    classes: &mut [Number; CLASS_NUMBERS],
    out: &mut [u8; BUFFER],
) -> Streams
    requires { length buf.old ≡ buffer_size }
    ensures { (result.leaks ≡ leaks) × Reported result }
{
    judge::start(rows, marks, pins, pinmarks, book, classes);
    let mut moved = 0;
    let mut so_far = Run {
        from: 0,
        to: 0,
        streams: streams::untouched(leaks),
        findings: 0,
        refusal: None,
        stop: None,
    };
    // No range counts the pieces: the input ends where it ends.
    loop {
        let from = so_far.from;
        let to = so_far.to;
        let streams = so_far.streams;
        let passed = run::run_lines(
            &buf[from..to],
            streams::has_ended(streams),
            rows,
            marks,
            pins,
            pinmarks,
            book,
            classes,
            out,
        );
        so_far = turned(rt, so_far, passed, &mut moved, buf, out);
        match so_far.stop {
            None => {}
            Some(why) => {
                let finished = finish(rt, so_far, why, &mut moved, book, out);
                return add_leaks(
                    rt, finished, &mut moved, rows, marks, pins, pinmarks, book, out,
                );
            }
        }
    }
}

// Whether Z was accepted.
fn is_closed(book: &[u64; BOOK_NUMBERS]) -> bool
    ensures { result ≡ closed_in book.now }
{
    book::is_closed(book)
}

// A function apart, so that the check of its caller need not count the bytes.
fn empty_buffer() -> [u8; BUFFER] {
    [0; BUFFER]
}

// Judges standard input, and says on standard error what its report cannot say.
fn judge_input(rt: HostRuntime, leaks: bool) -> Streams
    ensures { (result.leaks ≡ leaks) × Reported result }
{
    let mut buf = empty_buffer();
    let mut out = empty_buffer();
    let mut rows = [0; REFERENCE_NUMBERS];
    let mut marks = [0; REFERENCE_MARKS];
    let mut pins = [0; PIN_NUMBERS];
    let mut pinmarks = [0; PIN_MARKS];
    let mut book = [0; BOOK_NUMBERS];
    let mut classes = [0; CLASS_NUMBERS];
    let ended = judge_all(
        rt,
        leaks,
        &mut buf,
        &mut rows,
        &mut marks,
        &mut pins,
        &mut pinmarks,
        &mut book,
        &mut classes,
        &mut out,
    );
    if streams::is_unreadable(ended) {
        let _ = eprintln!(rt; "judge: the input could not be read");
        return ended;
    }
    if leaks & !streams::has_failed(ended) & !is_closed(&book) {
        let _ = eprintln!(rt; "judge: the trace has no end (no Z), so no leaks are listed");
    }
    ended
}

fn main(rt: HostRuntime) {
    let asked = arguments::asked_for(rt);
    match asked {
        Asked::Report => {
            judge_input(rt, false);
        }
        Asked::ReportAndLeaks => {
            judge_input(rt, true);
        }
        Asked::Another => {
            let _ = eprintln!(rt;
                "judge: the program takes --leaks or no argument, and a trace on standard input"
            );
        }
    }
}
