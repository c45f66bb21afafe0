// The loop that holds the lent tables: the lines of a piece of the input, handed to the step one after another.
#![tactic(auto)]

mod fit;
mod step;

ghost use Rattle.std.specs.Prelude.{◌≡◌, List, ℕ, ◌+◌, ◌≤◌, length, IfOk, Err};
ghost use Rattle.numbers.specs.Writing.{put};
ghost use Rattle.lines.specs.Numbered.{passes};
ghost use Rattle.rows.specs.Table.{room};
ghost use Rattle.rows.specs.References.{references};
ghost use Rattle.rows.specs.Pins.{pins};
ghost use Rattle.guide.specs.References.{filled};
ghost use Rattle.guide.specs.Pins.{filled as pin_filled};
ghost use Rattle.answers.specs.Answer.{most_found};
ghost use Rattle.report.specs.Shown.{most_shown, shown_findings};
ghost use Rattle.tables.specs.Tables.{Tables, tables};
ghost use Rattle.tables.specs.Lent.{tables_of, Same, Led};
ghost use Rattle.judge.specs.Outcome.{by_tables};
ghost use Rattle.run.specs.Running.{leaves, piece_outcome};
ghost use Rattle.run.specs.Way.{AsFar, Aims, Heard};

use answers::{Answer, Findings};
use lines::refusal::Refusal;
use pieces::Next;
use report::MOST_SHOWN;
use rows::Number;
use tables::Lent;

// Why a run stops: a line was refused, the slice has no room for the findings of one more, more must be read, or the input is at its end.
#[derive(Clone, Copy)]
pub enum Stop {
    Refused(Refusal),
    Full,
    More,
    End,
}

// How many bytes of the piece were taken, how many bytes of findings were put, how many findings these are, and why the run stopped.
#[derive(Clone, Copy)]
pub struct Passed {
    pub taken: usize,
    pub put: usize,
    pub findings: usize,
    pub stop: Stop,
}

// How far a run has come. The line that comes next stands from `at` up to `to`; where there is none, `stop` says why.
#[derive(Clone, Copy)]
struct Way {
    at: usize,
    to: usize,
    put: usize,
    findings: usize,
    stop: Stop,
}

fn stopped(way: Way, stop: Stop) -> Way
    ensures { AsFar way result × (result.to ≡ result.at) × (result.stop ≡ stop) }
{
    Way {
        at: way.at,
        to: way.at,
        put: way.put,
        findings: way.findings,
        stop,
    }
}

// The line that comes next.
fn aimed(way: Way, input: &[u8], ended: bool, size: usize) -> Way
    requires { (way.at ≤ length input.now) × (way.put ≤ size) }
    ensures { AsFar way result × Aims ended size input.now result }
{
    let at = way.at;
    let next = pieces::next_line(&input[at..], ended);
    match next {
        Next::Line(n) => {
            if size - way.put < MOST_SHOWN {
                return stopped(way, Stop::Full);
            }
            let mut line = way;
            line.to = at + n;
            line
        }
        Next::More => stopped(way, Stop::More),
        Next::End => stopped(way, Stop::End),
    }
}

// The findings of a line at a place where they have room; how long they are.
fn put_found(out: &mut [u8], at: usize, found: Findings) -> usize
    requires { at + most_shown ≤ length out.old }
    ensures { (result ≡ length (shown_findings found)) × (result ≤ most_shown) × (out.new ≡ put out.old at (shown_findings found)) }
{
    if found.count == 0 {
        return 0;
    }
    report::put_findings(out, at, Ok(found));
    report::findings_width(Ok(found))
}

// After the answer to the line that came next: its findings stand behind those before them.
fn heard(way: Way, answer: Answer, input: &[u8], ended: bool, out: &mut [u8]) -> Way
    requires { (way.to ≤ length input.now) × (way.put + most_shown ≤ length out.old) × (way.findings ≤ way.put) × IfOk answer (λ found. found.count ≤ most_found) }
    ensures { Heard ended input.now answer way out.old result out.new }
{
    match answer {
        Err(refusal) => stopped(way, Stop::Refused(refusal)),
        Ok(found) => {
            let width = put_found(out, way.put, found);
            let stop = way.stop;
            let passed = Way {
                at: way.to,
                to: way.to,
                put: way.put + width,
                findings: way.findings + found.count,
                stop,
            };
            aimed(passed, input, ended, out.len())
        }
    }
}

fn start(input: &[u8], ended: bool, size: usize) -> Way
    ensures { (result.at ≡ 0) × (result.put ≡ 0) × (result.findings ≡ 0) × Aims ended size input.now result }
{
    let way = Way {
        at: 0,
        to: 0,
        put: 0,
        findings: 0,
        stop: Stop::More,
    };
    aimed(way, input, ended, size)
}

fn how_far(way: Way) -> Passed
    ensures { result ≡ record { taken = way.at; put = way.put; findings = way.findings; stop = way.stop } }
{
    let stop = way.stop;
    Passed {
        taken: way.at,
        put: way.put,
        findings: way.findings,
        stop,
    }
}

// Line by line, by the guides if there are any; the next line is not refused by the tables.
fn run_on(lent: &mut Lent, input: &[u8], ended: bool, out: &mut [u8]) -> Passed
    requires { Led lent.old × (by_tables (tables_of lent.old) ≡ 0) }
    ensures outcome { leaves result (tables_of lent.new) out.new ≡ piece_outcome ended (tables_of lent.old) input.now out.old }
    ensures same { Same lent.new lent.old }
{
    let mut touched = 0;
    let mut way = start(input, ended, out.len());
    // No range counts the lines: where the next one ends shows once this one is heard.
    while way.at < way.to {
        let at = way.at;
        let to = way.to;
        let answer = step::step(lent, &input[at..to], &mut touched);
        way = heard(way, answer, input, ended, out);
    }
    how_far(way)
}

// The tables refuse the next line, if there is one.
fn run_refused(input: &[u8], ended: bool, size: usize, refusal: Refusal) -> Passed
    ensures { (T : Tables) (out : List ℕ) → passes (by_tables T) ≡ Err refusal → length out ≡ size → leaves result T out ≡ piece_outcome ended T input.now out }
{
    let way = start(input, ended, size);
    if way.to <= way.at {
        return how_far(way);
    }
    how_far(stopped(way, Stop::Refused(refusal)))
}

// Guides of all rows, which are filled from nothing.
fn fill(lent: &Lent, guide: &mut [u64], pinguide: &mut [u64])
    ensures references { guide.new ≡ filled (tables_of lent.now).references guide.old (room references (tables_of lent.now).references) }
    ensures pins { pinguide.new ≡ pin_filled (tables_of lent.now).pins pinguide.old (room pins (tables_of lent.now).pins) }
{
    guide::references::fill(lent.rows, lent.marks, guide);
    guide::pins::fill(lent.pins, lent.pinmarks, pinguide);
}

// By guides that are filled first.
fn run_by_guides(lent: &mut Lent, input: &[u8], ended: bool, out: &mut [u8]) -> Passed
    requires { by_tables (tables_of lent.old) ≡ 0 }
    ensures outcome { leaves result (tables_of lent.new) out.new ≡ piece_outcome ended (tables_of lent.old) input.now out.old }
    ensures same { Same lent.new lent.old }
{
    let mut guide = [0; guide::references::SIZE];
    let mut pinguide = [0; guide::pins::SIZE];
    fill(lent, &mut guide, &mut pinguide);
    let mut guided = Lent {
        rows: lent.rows,
        marks: lent.marks,
        guide: &mut guide,
        pins: lent.pins,
        pinmarks: lent.pinmarks,
        pinguide: &mut pinguide,
        book: lent.book,
        classes: lent.classes,
    };
    run_on(&mut guided, input, ended, out)
}

// A piece of fewer bytes than this is judged by scans: guides would take longer to fill than to serve.
const SHORT: usize = 4096;

// Judges the lines of a piece of the input, behind which it may have ended, and puts their findings at the front of `out`.
// It stops before a line that is refused, and before one whose findings may have no room.
pub fn run_lines(
    input: &[u8],
    ended: bool,
    rows: &mut [Number],
    marks: &mut [u64],
    pins: &mut [Number],
    pinmarks: &mut [u64],
    book: &mut [u64],
    classes: &mut [Number],
    out: &mut [u8],
) -> Passed
    ensures { leaves result (tables rows.new marks.new pins.new pinmarks.new book.new classes.new) out.new ≡ piece_outcome ended (tables rows.old marks.old pins.old pinmarks.old book.old classes.old) input.now out.old }
{
    if let Err(refusal) = judge::allows(book, classes) {
        return run_refused(input, ended, out.len(), refusal);
    }
    let mut lent = Lent {
        rows,
        marks,
        guide: &mut [],
        pins,
        pinmarks,
        pinguide: &mut [],
        book,
        classes,
    };
    if input.len() < SHORT {
        return run_on(&mut lent, input, ended, out);
    }
    run_by_guides(&mut lent, input, ended, out)
}
