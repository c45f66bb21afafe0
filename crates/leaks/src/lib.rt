// The list of the leaks after Z: a record for each outstanding buffer and each global or weak alive, in a lent slice.
#![tactic(auto)]

mod entries;
mod found;
mod sorting;

ghost use Rattle.std.specs.Prelude.{◌≡◌, List, [], ℕ, ◌*◌, length};
ghost use Rattle.words.specs.Lists.{joined};
ghost use Rattle.rows.specs.Table.{table};
ghost use Rattle.tables.specs.Tables.{tables};
ghost use Rattle.tables.specs.Listing.{leak_numbers, numbers_of, leaks_in, lists, list_of};
ghost use Rattle.leaks.specs.Found.{found_in};
ghost use Rattle.leaks.specs.Reply.{reply_of};

pub use entries::NUMBERS;
use found::{FIRST_REFERENCE, collect};
use lines::refusal::Refusal;
use rows::Number;
use sorting::sort;

// All leaks, in a slice that they fill.
fn fill(rows: &[Number], marks: &[u64], pins: &[Number], pinmarks: &[u64], leaks: &mut [Number])
    requires { length leaks.old ≡ length (found_in (table rows.now marks.now) (table pins.now pinmarks.now)) * leak_numbers }
    ensures { leaks.new ≡ joined (leaks_in (tables rows.now marks.now pins.now pinmarks.now [] [])) numbers_of }
{
    let outstanding = rows::pins::room(pins, pinmarks);
    let at = collect(rows, marks, pins, pinmarks, leaks, 0, 0, outstanding);
    let alive = rows::references::room(rows, marks);
    collect(
        rows,
        marks,
        pins,
        pinmarks,
        leaks,
        at,
        FIRST_REFERENCE,
        alive,
    );
    sort(leaks);
    entries::rule(leaks);
}

// Rule, thread, value and making line of each leak, ordered by making line, then rule and row, at the front of `leaks`: how many
// records were written, or that the book is short, the trace is open, or there is too little room.
pub fn list(
    rows: &[Number],
    marks: &[u64],
    pins: &[Number],
    pinmarks: &[u64],
    book: &[u64],
    leaks: &mut [Number],
) -> Result<usize, Refusal>
    ensures { (cs : List ℕ) → lists (reply_of result) leaks.new ≡ list_of (tables rows.now marks.now pins.now pinmarks.now book.now cs) leaks.old }
{
    if book::unfit(book) {
        return Err(Refusal::Unfit);
    }
    if !book::is_closed(book) {
        return Err(Refusal::OutOfStep);
    }
    let count = rows::pins::alive(pins, pinmarks) + rows::references::globals(rows, marks);
    if leaks.len() / NUMBERS < count {
        return Err(Refusal::NoRoom);
    }
    let end = count * NUMBERS;
    fill(rows, marks, pins, pinmarks, &mut leaks[..end]);
    Ok(count)
}
