// A row of either sort as numbers, and what is done alike to the rows and marks of both.
ghost use Rattle.std.specs.Prelude.{◌≡◌, Bool, false, ℕ, ◌+◌, ◌*◌, ◌/◌, ◌<◌, ◌≤◌, length, get_or, None};
ghost use Rattle.rows.specs.Scan.{how_many, lowest};
ghost use Rattle.rows.specs.Marks.{word, in_word};
ghost use Rattle.rows.specs.Table.{Layout, table, put_row, room, row_at, matches, passes, free_row, alive, found, stored, ended};
ghost use Rattle.rows.specs.View.{view};
ghost use Rattle.rows.specs.Tests.{Computes};

use super::marks::{clear_mark, free_below, is_used, room_of, set_mark, used_below};
use super::{Number, WORD, clear_row};

// A sort of rows.
pub(crate) trait Row: Copy {
    ghost layout: { Layout Self };

    ghost STRIDE: { ℕ };

    // Numbers to a row.
    const STRIDE: usize;

    // What stands in row r, used or not.
    fn read(rows: &[Number], r: usize) -> Self
        requires { r < length rows.now / layout.stride }
        ensures { result ≡ row_at layout rows.now r };

    // Puts a row's numbers into row r.
    fn write(self, rows: &mut [Number], r: usize)
        requires { r < length rows.old / layout.stride }
        ensures { rows.new ≡ put_row layout.stride rows.old r (layout.numbers self) };

    ghost strides: { layout.stride ≡ STRIDE };

    ghost wide: { 0 < STRIDE };
}

// The lesser of rows and marks, at most 65,536.
pub(crate) fn room<R: Row>(rows: &[Number], marks: &[u64]) -> usize
    ensures { result ≡ room R.layout (table rows.now marks.now) }
{
    room_of(rows.len() / R::STRIDE, marks.len())
}

// The lowest free row, or the room, which the definitions give where there is none (`rows: Table.free_row`, `found`).
pub(crate) fn lowest_free<R: Row>(rows: &[Number], marks: &[u64]) -> usize
    ensures { result ≡ free_row R.layout (table rows.now marks.now) }
{
    free_below(marks, 0, room::<R>(rows, marks))
}

// How many rows are alive.
pub(crate) fn alive<R: Row>(rows: &[Number], marks: &[u64]) -> usize
    ensures { result ≡ alive R.layout (table rows.now marks.now) }
{
    used_below(marks, room::<R>(rows, marks))
}

// What stands in row r of the room, where it is used.
pub(crate) fn slot<R: Row>(rows: &[Number], marks: &[u64], r: usize) -> Option<R>
    ensures { result ≡ get_or (view R.layout (table rows.now marks.now)) r None }
{
    if room::<R>(rows, marks) <= r {
        return None;
    }
    if is_used(marks, r) {
        Some(R::read(rows, r))
    } else {
        None
    }
}

// Row r holds this and is marked; nothing where there is no row r.
pub(crate) fn store<R: Row>(rows: &mut [Number], marks: &mut [u64], r: usize, row: R)
    ensures { table rows.new marks.new ≡ stored R.layout (table rows.old marks.old) r row }
{
    if r < room::<R>(rows, marks) {
        row.write(rows, r);
        set_mark(marks, r);
    }
}

// Ends row r; nothing where there is no row r.
pub(crate) fn end<R: Row>(rows: &mut [Number], marks: &mut [u64], r: usize)
    ensures { table rows.new marks.new ≡ ended R.layout (table rows.old marks.old) r }
{
    if r < room::<R>(rows, marks) {
        clear_row(rows, R::STRIDE, r);
        clear_mark(marks, r);
    }
}

// How many rows of word w pass the test, used or not. Where the test has no branch, this is compiled to vectors.
pub(crate) fn matching<R: Row, Q: Fn(R) -> bool>(rows: &[Number], w: usize, q: &Q) -> Number
    requires there { w * word + word ≤ length rows.now / R.layout.stride }
    requires always { Q.IsAlwaysCallable q.now }
    ensures { (result ≤ word) × ((p : R → Bool) → Computes (Q.post q.now) p → result ≡ how_many (in_word (matches R.layout p rows.now) w) word) }
{
    let mut sum: Number = 0;
    for i in 0..WORD {
        sum += q(R::read(rows, w * WORD + i)) as Number;
    }
    sum
}

// Row r is used, and passes the test.
pub(crate) fn holds<R: Row, Q: Fn(R) -> bool>(
    rows: &[Number],
    marks: &[u64],
    r: usize,
    q: &Q,
) -> bool
    requires there { r < room R.layout (table rows.now marks.now) }
    requires always { Q.IsAlwaysCallable q.now }
    ensures { (p : R → Bool) → Computes (Q.post q.now) p → result ≡ passes R.layout p (table rows.now marks.now) r }
{
    if q(R::read(rows, r)) {
        is_used(marks, r)
    } else {
        false
    }
}

// The lowest such row among the first m of word w, or m.
pub(crate) fn find_first<R: Row, Q: Fn(R) -> bool>(
    rows: &[Number],
    marks: &[u64],
    w: usize,
    m: usize,
    q: &Q,
) -> usize
    requires there { w * word + m ≤ room R.layout (table rows.now marks.now) }
    requires always { Q.IsAlwaysCallable q.now }
    ensures { (result ≤ m) × ((p : R → Bool) → Computes (Q.post q.now) p → result ≡ lowest (in_word (passes R.layout p (table rows.now marks.now)) w) m) }
{
    for i in 0..m {
        if holds(rows, marks, w * WORD + i, q) {
            return i;
        }
    }
    m
}

// How many of the m rows from word w on are such.
pub(crate) fn count_first<R: Row, Q: Fn(R) -> bool>(
    rows: &[Number],
    marks: &[u64],
    w: usize,
    m: usize,
    q: &Q,
) -> Number
    requires there { w * word + m ≤ room R.layout (table rows.now marks.now) }
    requires always { Q.IsAlwaysCallable q.now }
    ensures { (result ≤ m) × ((p : R → Bool) → Computes (Q.post q.now) p → result ≡ how_many (in_word (passes R.layout p (table rows.now marks.now)) w) m) }
{
    let mut sum: Number = 0;
    for i in 0..m {
        sum += holds(rows, marks, w * WORD + i, q) as Number;
    }
    sum
}

// The lowest row of word w that passes q, or 64; looked at row by row only where one passes o, as each does that passes q. A word of which no row is used is passed over at once.
fn find_in<R: Row, O: Fn(R) -> bool, Q: Fn(R) -> bool>(
    rows: &[Number],
    marks: &[u64],
    w: usize,
    o: &O,
    q: &Q,
) -> usize
    requires there { w * word + word ≤ room R.layout (table rows.now marks.now) }
    requires always { O.IsAlwaysCallable o.now × Q.IsAlwaysCallable q.now }
    ensures { (u p : R → Bool) → Computes (O.post o.now) u → Computes (Q.post q.now) p → ((x : R) → u x ≡ false → p x ≡ false) → result ≡ lowest (in_word (passes R.layout p (table rows.now marks.now)) w) word }
{
    if marks[w] == 0 {
        return WORD;
    }
    if matching(rows, w, o) == 0 {
        return WORD;
    }
    find_first(rows, marks, w, WORD, q)
}

// The lowest used row that passes q, or the room.
pub(crate) fn find<R: Row, O: Fn(R) -> bool, Q: Fn(R) -> bool>(
    rows: &[Number],
    marks: &[u64],
    o: &O,
    q: &Q,
) -> usize
    requires { O.IsAlwaysCallable o.now × Q.IsAlwaysCallable q.now }
    ensures { (u p : R → Bool) → Computes (O.post o.now) u → Computes (Q.post q.now) p → ((x : R) → u x ≡ false → p x ≡ false) → result ≡ found R.layout p (table rows.now marks.now) }
{
    let n = room::<R>(rows, marks);
    let full = n / WORD;
    for w in 0..full {
        let i = find_in(rows, marks, w, o, q);
        if i < WORD {
            return w * WORD + i;
        }
    }
    full * WORD + find_first(rows, marks, full, n % WORD, q)
}
