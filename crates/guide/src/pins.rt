// The guide of pin rows: where a buffer is listed, and how many buffers each thread has.
ghost use Rattle.std.specs.Prelude.{◌≡◌, ◌+◌, ◌<◌, get_or};
ghost use Rattle.rows.specs.Table.{table, room};
ghost use Rattle.rows.specs.Pins.{pins};
ghost use Rattle.guide.specs.Pins.{places, first_of, second_of, first, second, cell_of, found_in, noted, forgotten, filled};

use crate::listing::{self, Listed, list};
use crate::spread::spread;
use crate::word::{less, more, number_at};
use rows::Number;
use rows::pins::Pin;

// So many words are a guide.
pub const SIZE: usize = 4114;

const PLACES: u64 = 4096;

// A number for each of 17 threads, and one for all others.
const COUNTS: usize = 4096;

const OTHERS: usize = 17;

// The two places of buffer b of family f, of thread t.
fn places_of(t: Number, f: Number, b: Number) -> (usize, usize)
    ensures { (result.0 ≡ first_of t f b) × (result.1 ≡ second_of t f b) }
{
    let s = spread(b, t % 32 * 16 + f % 16);
    ((s / 1048576 % PLACES) as usize, (s / 4 % PLACES) as usize)
}

impl Listed for Pin {
    ghost layout = { pins };

    ghost first = { first };

    ghost second = { second };

    fn room(rows: &[Number], marks: &[u64]) -> usize {
        rows::pins::room(rows, marks)
    }

    fn slot(rows: &[Number], marks: &[u64], r: usize) -> Option<Pin> {
        rows::pins::slot(rows, marks, r)
    }

    fn first(self) -> usize {
        places_of(self.thread, self.family, self.buffer).0
    }

    fn second(self) -> usize {
        places_of(self.thread, self.family, self.buffer).1
    }
}

// The lowest used row of buffer b of family f, of thread t, of those that the guide lists for it, or the room.
// The room where there is none: specs/Listing.antt has it so.
pub fn find(rows: &[Number], marks: &[u64], guide: &[u64], t: Number, f: Number, b: Number) -> usize
    ensures { result ≡ found_in (table rows.now marks.now) guide.now t f b }
{
    let is = |x: Pin| (x.buffer == b) & (x.family == f) & (x.thread == t);
    let (first, second) = places_of(t, f, b);
    let listed = listing::find(rows, marks, guide, first, second, &is);
    match listed {
        Some(r) => r,
        None => rows::pins::find(rows, marks, t, f, b),
    }
}

// The cell of thread t.
fn cell_of(t: Number) -> usize
    ensures { (result ≡ cell_of t) × (result < 18) }
{
    if t <= 16 { t as usize } else { OTHERS }
}

// Row r, where it is used, is in the guide: listed and counted.
pub fn note(rows: &[Number], marks: &[u64], guide: &mut [u64], r: usize)
    ensures { guide.new ≡ noted (table rows.now marks.now) guide.old r }
{
    if let Some(x) = rows::pins::slot(rows, marks, r) {
        list(rows, marks, guide, x, r);
        more(guide, COUNTS + cell_of(x.thread));
    }
}

// Row r, where it is used, is no longer counted. Where it was listed it is found no more once it has ended.
pub fn forget(rows: &[Number], marks: &[u64], guide: &mut [u64], r: usize)
    ensures { guide.new ≡ forgotten (table rows.now marks.now) guide.old r }
{
    if let Some(x) = rows::pins::slot(rows, marks, r) {
        less(guide, COUNTS + cell_of(x.thread));
    }
}

// How many rows of thread t are counted.
pub fn held(guide: &[u64], t: Number) -> u64
    ensures { result ≡ get_or guide.now (places + cell_of t) 0 }
{
    number_at(guide, COUNTS + cell_of(t))
}

// A guide of all rows, where it was all 0. Each sort has this loop: one for both would be handed `note`, and be no shorter.
pub fn fill(rows: &[Number], marks: &[u64], guide: &mut [u64])
    ensures { guide.new ≡ filled (table rows.now marks.now) guide.old (room pins (table rows.now marks.now)) }
{
    let n = rows::pins::room(rows, marks);
    for r in 0..n {
        note(rows, marks, guide, r);
    }
}
