// The guide of reference rows: where the handle of a thread is listed, how many locals each frame has and where they stand, and where the lowest free row may stand.
ghost use Rattle.std.specs.Prelude.{◌≡◌, ◌+◌, ◌-◌, ◌<◌, ◌≤◌, min, length, get_or, fold};
ghost use Rattle.std.specs.Int.Bits.{bit_or};
ghost use Rattle.rows.specs.Marks.{word};
ghost use Rattle.rows.specs.Table.{table, room};
ghost use Rattle.rows.specs.Frees.{free_from};
ghost use Rattle.rows.specs.References.{references};
ghost use Rattle.guide.specs.Masks.{with_bit};
ghost use Rattle.guide.specs.Frees.{raised_at, lowered_at};
ghost use Rattle.guide.specs.References.{places, cells, words, marks as mark_words, used_at, low_at, size, first_of, second_of, first, second, cell_of, found_in, noted, forgotten, bits_from, none_from, filled};

use crate::listing::{self, Listed, list};
use crate::spread::spread;
use crate::word::{less, more, number_at, put_word};
use rows::references::Reference;
use rows::{Number, WORD};

// So many words are a guide.
pub const SIZE: usize = 36088;

const PLACES: u64 = 32768;

// A number for each of 65 frames of 17 threads, and one for all others.
const COUNTS: usize = 32768;

// Then two words for each: which words of marks its rows stand in, a bit for each word, and which marks of such words are theirs.
const WORDS: usize = 33874;

const MARKS: usize = 34980;

const FRAMES: usize = 65;

const OTHERS: usize = 1105;

// Then how many rows are used, and the word of marks below which all are.
const USED: usize = 36086;

const LOW: usize = 36087;

// The two places of handle h of thread t.
fn places_of(t: Number, h: Number) -> (usize, usize)
    ensures { (result.0 ≡ first_of t h) × (result.1 ≡ second_of t h) }
{
    let s = spread(h, t % 32);
    ((s / 131072 % PLACES) as usize, (s / 4 % PLACES) as usize)
}

impl Listed for Reference {
    ghost layout = { references };

    ghost first = { first };

    ghost second = { second };

    fn room(rows: &[Number], marks: &[u64]) -> usize {
        rows::references::room(rows, marks)
    }

    fn slot(rows: &[Number], marks: &[u64], r: usize) -> Option<Reference> {
        rows::references::slot(rows, marks, r)
    }

    fn first(self) -> usize {
        places_of(self.thread, self.handle).0
    }

    fn second(self) -> usize {
        places_of(self.thread, self.handle).1
    }
}

// The lowest used row of handle h in thread t, of those that the guide lists for it, or the room.
// The room where there is none: specs/Listing.antt has it so.
pub fn find(rows: &[Number], marks: &[u64], guide: &[u64], t: Number, h: Number) -> usize
    ensures { result ≡ found_in (table rows.now marks.now) guide.now t h }
{
    let is = |x: Reference| (x.handle == h) & (x.thread == t);
    let (first, second) = places_of(t, h);
    let listed = listing::find(rows, marks, guide, first, second, &is);
    match listed {
        Some(r) => r,
        None => rows::references::find(rows, marks, t, h),
    }
}

// The cell of frame f of thread t.
fn cell_of(t: Number, f: Number) -> usize
    ensures { (result ≡ cell_of t f) × (result < cells) }
{
    if (t <= 16) & (f <= 64) {
        t as usize * FRAMES + f as usize
    } else {
        OTHERS
    }
}

// Bit i set in the word at k.
fn set_bit(guide: &mut [u64], k: usize, i: usize)
    requires { i < word }
    ensures { guide.new ≡ with_bit guide.old k i }
{
    if k < guide.len() {
        guide[k] |= 1 << i;
    }
}

// Row r, where it is used, is in the guide: listed, shown and counted.
pub fn note(rows: &[Number], marks: &[u64], guide: &mut [u64], r: usize)
    ensures { guide.new ≡ noted (table rows.now marks.now) guide.old r }
{
    if let Some(x) = rows::references::slot(rows, marks, r) {
        list(rows, marks, guide, x, r);
        let k = cell_of(x.thread, x.frame);
        more(guide, COUNTS + k);
        set_bit(guide, WORDS + k, r / WORD % WORD);
        set_bit(guide, MARKS + k, r % WORD);
        more(guide, USED);
    }
}

// Row r, where it is used, is no longer counted, and may be the lowest free one. Where it was listed and shown it is found no more once it has ended.
pub fn forget(rows: &[Number], marks: &[u64], guide: &mut [u64], r: usize)
    ensures { guide.new ≡ forgotten (table rows.now marks.now) guide.old r }
{
    if let Some(x) = rows::references::slot(rows, marks, r) {
        less(guide, COUNTS + cell_of(x.thread, x.frame));
        less(guide, USED);
        lower(guide, r);
    }
}

// How many rows of thread t and frame f are counted.
pub fn held(guide: &[u64], t: Number, f: Number) -> u64
    ensures { result ≡ get_or guide.now (places + cell_of t f) 0 }
{
    number_at(guide, COUNTS + cell_of(t, f))
}

// The bits of all these words.
fn together(ws: &[u64]) -> u64
    ensures { result ≡ fold bit_or 0 ws.now }
{
    ws.iter().fold(0, |a, w| a | *w)
}

// The bits of the frames from f on of thread t, together, and those of what is in no such frame, where their words stand from `at` on.
fn bits_from(guide: &[u64], at: usize, t: Number, f: Number) -> u64
    requires { at ≤ size }
    ensures { result ≡ bits_from guide.now at t f }
{
    let k = guide.len().min(at + cell_of(t, f));
    let n = frames_in(guide, k, f);
    number_at(guide, at + OTHERS) | together(&guide[k..k + n])
}

// The words of marks where rows of thread t and frame f or above may stand: a bit for each.
pub fn words_from(guide: &[u64], t: Number, f: Number) -> u64
    ensures { result ≡ bits_from guide.now words t f }
{
    bits_from(guide, WORDS, t, f)
}

// The marks of such words that may be theirs.
pub fn marks_from(guide: &[u64], t: Number, f: Number) -> u64
    ensures { result ≡ bits_from guide.now mark_words t f }
{
    bits_from(guide, MARKS, t, f)
}

// No bits of these frames, where their words stand from `at` on.
fn clear_bits(guide: &mut [u64], at: usize, t: Number, f: Number)
    requires { at ≤ size }
    ensures { guide.new ≡ none_from guide.old at t f }
{
    let k = guide.len().min(at + cell_of(t, f));
    let n = frames_in(guide, k, f);
    guide[k..k + n].fill(0);
}

// No such rows are there any more.
pub fn clear_from(guide: &mut [u64], t: Number, f: Number)
    ensures { guide.new ≡ none_from (none_from guide.old words t f) mark_words t f }
{
    clear_bits(guide, WORDS, t, f);
    clear_bits(guide, MARKS, t, f);
}

// How many rows are used.
pub fn used(guide: &[u64]) -> u64
    ensures { result ≡ get_or guide.now used_at 0 }
{
    number_at(guide, USED)
}

// Row r was the lowest free one.
pub fn raise(guide: &mut [u64], r: usize)
    ensures { guide.new ≡ raised_at guide.old low_at r }
{
    put_word(guide, LOW, (r / WORD) as u64);
}

// Row r is free.
fn lower(guide: &mut [u64], r: usize)
    ensures { guide.new ≡ lowered_at guide.old low_at r }
{
    let w = (r / WORD) as u64;
    put_word(guide, LOW, number_at(guide, LOW).min(w));
}

// The lowest free row, of those that are not below the word which the guide names, or the room.
// The room where there is none: `rows: Frees.free_from` has it so.
pub fn lowest_free(rows: &[Number], marks: &[u64], guide: &[u64]) -> usize
    ensures { result ≡ free_from references (table rows.now marks.now) (get_or guide.now low_at 0) }
{
    rows::references::free_from(rows, marks, number_at(guide, LOW))
}

// A guide of all rows, where it was all 0.
pub fn fill(rows: &[Number], marks: &[u64], guide: &mut [u64])
    ensures { guide.new ≡ filled (table rows.now marks.now) guide.old (room references (table rows.now marks.now)) }
{
    let n = rows::references::room(rows, marks);
    for r in 0..n {
        note(rows, marks, guide, r);
    }
}

// Of how many frames from f to 64 the guide has words from k on.
fn frames_in(guide: &[u64], k: usize, f: Number) -> usize
    ensures { result ≡ min (65 - f) (length guide.now - k) }
{
    FRAMES
        .saturating_sub(f as usize)
        .min(guide.len().saturating_sub(k))
}
