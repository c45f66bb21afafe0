// The room of rows and marks, and the marks: one bit for each row, sixty-four to a word.
ghost use Rattle.std.specs.Prelude.{◌≡◌, ◌*◌, ◌<◌, ◌≤◌, min, length};
ghost use Rattle.rows.specs.Scan.{how_many, lowest};
ghost use Rattle.rows.specs.Marks.{word, in_word, used, free, marked, unmarked};
ghost use Rattle.rows.specs.Table.{most};
ghost use Rattle.rows.specs.Frees.{free_at};

use super::{MOST, WORD};

// The room of so many rows and words of marks.
pub(crate) fn room_of(rows: usize, words: usize) -> usize
    ensures { result ≡ min (min rows (words * word)) most }
{
    rows.min(MOST).min(words.min(MOST) * WORD)
}

// Row r is marked as used.
pub(crate) fn is_used(marks: &[u64], r: usize) -> bool
    requires { r < length marks.now * word }
    ensures { result ≡ used marks.now r }
{
    (marks[r / WORD] >> (r % WORD)) % 2 == 1
}

// Sets row r's mark.
pub(crate) fn set_mark(marks: &mut [u64], r: usize)
    requires { r < length marks.old * word }
    ensures { marks.new ≡ marked marks.old r }
{
    marks[r / WORD] |= 1 << (r % WORD);
}

// Clears row r's mark.
pub(crate) fn clear_mark(marks: &mut [u64], r: usize)
    requires { r < length marks.old * word }
    ensures { marks.new ≡ unmarked marks.old r }
{
    marks[r / WORD] &= !(1 << (r % WORD));
}

// The lowest free row of word w, or 64: the trailing zeros of the inverted word.
fn free_in(marks: &[u64], w: usize) -> usize
    requires { w < length marks.now }
    ensures { result ≡ lowest (in_word (free marks.now) w) word }
{
    (!marks[w]).trailing_zeros() as usize
}

// The lowest free row below n that does not stand below word `from`, or n.
pub(crate) fn free_below(marks: &[u64], from: usize, n: usize) -> usize
    requires { (n ≤ length marks.now * word) × (n ≤ most) × (from ≤ most) }
    ensures { result ≡ lowest (free_at marks.now from) n }
{
    for w in from..n.div_ceil(WORD) {
        let i = free_in(marks, w);
        if i < WORD {
            return (w * WORD + i).min(n);
        }
    }
    n
}

// How many rows of word w are used: the count of its ones.
fn used_in(marks: &[u64], w: usize) -> usize
    requires { w < length marks.now }
    ensures { (result ≡ how_many (in_word (used marks.now) w) word) × (result ≤ word) }
{
    marks[w].count_ones() as usize
}

// How many of the first m rows of word w are used.
fn used_first(marks: &[u64], w: usize, m: usize) -> usize
    requires { (w < length marks.now) × (m < word) }
    ensures { (result ≡ how_many (in_word (used marks.now) w) m) × (result ≤ word) }
{
    (marks[w] % (1 << m)).count_ones() as usize
}

// How many rows below n are used.
pub(crate) fn used_below(marks: &[u64], n: usize) -> usize
    requires { (n ≤ length marks.now * word) × (n ≤ most) }
    ensures { result ≡ how_many (used marks.now) n }
{
    let full = n / WORD;
    let mut sum = 0;
    for w in 0..full {
        sum += used_in(marks, w);
    }
    let m = n % WORD;
    if m == 0 {
        return sum;
    }
    sum + used_first(marks, full, m)
}
