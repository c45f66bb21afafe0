// The judge over lent tables: a start, and one step.
#![tactic(auto)]

pub mod items;

ghost use Rattle.std.specs.Prelude.{◌≡◌, List, ℕ};
ghost use Rattle.lines.specs.Numbered.{passes};
ghost use Rattle.tables.specs.Tables.{tables};
ghost use Rattle.tables.specs.Stepping.{start_of};
ghost use Rattle.events.specs.Outcome.{leaves};
ghost use Rattle.judge.specs.Outcome.{step_outcome, by_tables};

use answers::Answer;
use events::heard;
use lines::refusal::Refusal;
use rows::Number;
use tables::Lent;

// Clears all rows, marks, book and classes.
pub fn start(
    rows: &mut [Number],
    marks: &mut [u64],
    pins: &mut [Number],
    pinmarks: &mut [u64],
    book: &mut [u64],
    classes: &mut [Number],
)
    ensures { tables rows.new marks.new pins.new pinmarks.new book.new classes.new ≡ start_of (tables rows.old marks.old pins.old pinmarks.old book.old classes.old) }
{
    rows::clear(rows, marks);
    rows::clear(pins, pinmarks);
    book::clear(book);
    classes::clear(classes);
}

// Unfit where the book is not fit or the class table is short, then Length for line 1,000,001.
pub fn allows(book: &[u64], classes: &[Number]) -> Result<(), Refusal>
    ensures { (rs ms ps ns : List ℕ) → result ≡ passes (by_tables (tables rs ms ps ns book.now classes.now)) }
{
    if book::unfit(book) | classes::is_short(classes) {
        return Err(Refusal::Unfit);
    }
    if book::MOST_LINES <= book::lines_of(book) {
        return Err(Refusal::Length);
    }
    Ok(())
}

// One line of the trace, all its bytes with the LF: why it is refused, or its findings.
pub fn step(
    line: &[u8],
    rows: &mut [Number],
    marks: &mut [u64],
    pins: &mut [Number],
    pinmarks: &mut [u64],
    book: &mut [u64],
    classes: &mut [Number],
) -> Answer
    ensures { leaves result (tables rows.new marks.new pins.new pinmarks.new book.new classes.new) ≡ step_outcome (tables rows.old marks.old pins.old pinmarks.old book.old classes.old) line.now }
{
    allows(book, classes)?;
    let mut handles = [0; 8];
    let event = lines::read_line(line, &mut handles)?;
    let mut lent = Lent {
        rows,
        marks,
        guide: &mut [],
        pins,
        pinmarks,
        pinguide: &mut [],
        book,
        classes,
    };
    heard::on_event(&mut lent, event, handles)
}
