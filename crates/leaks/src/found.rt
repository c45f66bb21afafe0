// The leaks at the places, collected in their order.
ghost use Rattle.std.specs.Prelude.{◌≡◌, [], ◌∷◌, ◌+◌, ◌/◌, ◌<◌, ◌≤◌, length};
ghost use Rattle.rows.specs.Slots.{held};
ghost use Rattle.rows.specs.Table.{table};
ghost use Rattle.tables.specs.Listing.{leak_numbers};
ghost use Rattle.leaks.specs.Entries.{entries_in};
ghost use Rattle.leaks.specs.Found.{places, of_pin, of_reference, found_at, found_from, Added};

use super::entries::{Entry, write};
use rows::pins::Pin;
use rows::references::Reference;
use rows::{Number, pins, references};

// The place of the first reference row, behind all that pin rows can have.
pub(crate) const FIRST_REFERENCE: usize = rows::MOST;

fn of_pin(place: usize, row: Option<Pin>) -> Option<Entry>
    ensures { result ≡ of_pin place row }
{
    let x = row?;
    Some(Entry {
        place: place as Number,
        thread: x.thread,
        value: x.buffer,
        line: x.line,
    })
}

// A handle of a thread does not leak.
fn of_reference(place: usize, row: Option<Reference>) -> Option<Entry>
    ensures { result ≡ of_reference place row }
{
    let x = row?;
    if x.thread != 0 {
        return None;
    }
    Some(Entry {
        place: place as Number,
        thread: x.thread,
        value: x.handle,
        line: x.line,
    })
}

// What leaks at a place.
fn found_at(
    rows: &[Number],
    marks: &[u64],
    pins: &[Number],
    pinmarks: &[u64],
    place: usize,
) -> Option<Entry>
    ensures { result ≡ found_at (table rows.now marks.now) (table pins.now pinmarks.now) place }
{
    if place < FIRST_REFERENCE {
        return of_pin(place, pins::slot(pins, pinmarks, place));
    }
    of_reference(
        place,
        references::slot(rows, marks, place - FIRST_REFERENCE),
    )
}

// One more behind `at` entries, if something leaks: how many there are then.
fn add(leaks: &mut [Number], at: usize, found: Option<Entry>) -> usize
    requires { at + length (held (found ∷ [])) ≤ length leaks.old / leak_numbers }
    ensures { Added (held (found ∷ [])) at result (entries_in leaks.old) (entries_in leaks.new) }
{
    match found {
        Some(entry) => {
            write(leaks, at, entry);
            at + 1
        }
        None => at,
    }
}

// Those of `count` places from `first` on, behind `at` entries: how many there are then.
pub(crate) fn collect(
    rows: &[Number],
    marks: &[u64],
    pins: &[Number],
    pinmarks: &[u64],
    leaks: &mut [Number],
    at: usize,
    first: usize,
    count: usize,
) -> usize
    requires { (first + count ≤ places) × (at + length (found_from (table rows.now marks.now) (table pins.now pinmarks.now) first count) ≤ length leaks.old / leak_numbers) }
    ensures { Added (found_from (table rows.now marks.now) (table pins.now pinmarks.now) first count) at result (entries_in leaks.old) (entries_in leaks.new) }
{
    let mut n = at;
    for i in 0..count {
        n = add(leaks, n, found_at(rows, marks, pins, pinmarks, first + i));
    }
    n
}
