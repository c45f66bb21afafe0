// Reference rows: thread, handle and frame of each handle that is alive, the line that made it, and its stated class or 0.
ghost use Rattle.std.specs.Prelude.{◌≡◌, ◌+◌, ◌*◌, ◌/◌, ◌<◌, ◌≤◌, length, get_or, None, refl};
ghost use Rattle.std.proofs.Common.{rules};
ghost use Rattle.rows.specs.Scan.{how_many};
ghost use Rattle.rows.specs.Marks.{word, in_word};
ghost use Rattle.rows.specs.Table.{table, put_row, room, row_at, passes, free_row, alive, found, counted, stored, taken, changed, ended, ended_if, ended_from, ended_all};
ghost use Rattle.rows.specs.Frees.{free_from};
ghost use Rattle.rows.specs.View.{view};
ghost use Rattle.rows.specs.References.{references, of_thread, is_handle, in_frame, from_frame, with_class, class_at};

use super::marks::free_below;
use super::row::{self, Row, count_first, holds, matching};
use super::{MOST, Number, WORD};

// Numbers to a row: what a caller lends for so many rows.
pub const STRIDE: usize = 5;

// A row: thread and frame are 0 for global and weak handles, else from 1; class is 0 where none is stated.
#[derive(Clone, Copy)]
pub struct Reference {
    pub thread: Number,
    pub handle: Number,
    pub frame: Number,
    pub line: Number,
    pub class: Number,
}

impl Row for Reference {
    ghost layout = { references };

    ghost STRIDE = { 5 };

    ghost strides = { refl };

    ghost wide = { Prim.search rules };

    const STRIDE: usize = STRIDE;

    fn read(rows: &[Number], r: usize) -> Reference {
        let at = r * STRIDE;
        Reference {
            thread: rows[at],
            handle: rows[at + 1],
            frame: rows[at + 2],
            line: rows[at + 3],
            class: rows[at + 4],
        }
    }

    fn write(self, rows: &mut [Number], r: usize) {
        let at = r * STRIDE;
        rows[at] = self.thread;
        rows[at + 1] = self.handle;
        rows[at + 2] = self.frame;
        rows[at + 3] = self.line;
        rows[at + 4] = self.class;
    }
}

// The lesser of rows and marks, at most 65,536.
pub fn room(rows: &[Number], marks: &[u64]) -> usize
    ensures { result ≡ room references (table rows.now marks.now) }
{
    row::room::<Reference>(rows, marks)
}

// The lowest free row, or the room.
// The room where there is none: specs/Table.antt has it so.
pub fn lowest_free(rows: &[Number], marks: &[u64]) -> usize
    ensures { result ≡ free_row references (table rows.now marks.now) }
{
    row::lowest_free::<Reference>(rows, marks)
}

// The lowest free row that does not stand below word w of the marks, or the room.
// The room where there is none: specs/Frees.antt has it so.
pub fn free_from(rows: &[Number], marks: &[u64], w: u64) -> usize
    ensures { result ≡ free_from references (table rows.now marks.now) w }
{
    let n = room(rows, marks);
    if MOST as u64 <= w {
        return n;
    }
    free_below(marks, w as usize, n)
}

// How many rows are alive.
pub fn alive(rows: &[Number], marks: &[u64]) -> usize
    ensures { result ≡ alive references (table rows.now marks.now) }
{
    row::alive::<Reference>(rows, marks)
}

// What stands in row r of the room, where it is used.
pub fn slot(rows: &[Number], marks: &[u64], r: usize) -> Option<Reference>
    ensures { result ≡ get_or (view references (table rows.now marks.now)) r None }
{
    row::slot(rows, marks, r)
}

// The stated class of row r, used or not; 0 where there is no row r.
pub fn class_at(rows: &[Number], marks: &[u64], r: usize) -> Number
    ensures { result ≡ class_at (table rows.now marks.now) r }
{
    if r < room(rows, marks) {
        Reference::read(rows, r).class
    } else {
        0
    }
}

// Puts a class into row r: one number, the row's others stay.
fn write_class(rows: &mut [Number], r: usize, class: Number)
    requires { r < length rows.old / references.stride }
    ensures { rows.new ≡ put_row references.stride rows.old r (references.numbers (with_class class (row_at references rows.old r))) }
{
    rows[r * STRIDE + 4] = class;
}

// Row r holds this and is marked; nothing where there is no row r.
pub fn store(rows: &mut [Number], marks: &mut [u64], r: usize, row: Reference)
    ensures { table rows.new marks.new ≡ stored references (table rows.old marks.old) r row }
{
    row::store(rows, marks, r, row);
}

// Row r has this stated class, and its mark stays; nothing where there is no row r.
pub fn state(rows: &mut [Number], marks: &[u64], r: usize, class: Number)
    ensures { table rows.new marks.now ≡ changed references (table rows.old marks.now) r (with_class class) }
{
    if r < room(rows, marks) {
        write_class(rows, r, class);
    }
}

// Takes the lowest free row, and answers it, or the room where all are used.
// The room and no Option: specs/Table.antt has it so.
pub fn take(rows: &mut [Number], marks: &mut [u64], row: Reference) -> usize
    ensures answer { result ≡ free_row references (table rows.old marks.old) }
    ensures left { table rows.new marks.new ≡ taken references (table rows.old marks.old) row }
{
    let r = lowest_free(rows, marks);
    store(rows, marks, r, row);
    r
}

// Ends row r; nothing where there is no row r.
pub fn end(rows: &mut [Number], marks: &mut [u64], r: usize)
    ensures { table rows.new marks.new ≡ ended references (table rows.old marks.old) r }
{
    row::end::<Reference>(rows, marks, r);
}

// The row is of thread t.
fn of_thread(row: Reference, t: Number) -> bool
    ensures { result ≡ of_thread t row }
{
    row.thread == t
}

// The row is that of handle h in thread t. These tests have no branch, so that a count of such rows is compiled to vectors.
fn is_handle(row: Reference, t: Number, h: Number) -> bool
    ensures { result ≡ is_handle t h row }
{
    (row.handle == h) & (row.thread == t)
}

// The row is of thread t and frame f.
fn in_frame(row: Reference, t: Number, f: Number) -> bool
    ensures { result ≡ in_frame t f row }
{
    (row.frame == f) & (row.thread == t)
}

// The row is of thread t and frame f or above.
fn from_frame(row: Reference, t: Number, f: Number) -> bool
    ensures { result ≡ from_frame t f row }
{
    (f <= row.frame) & (row.thread == t)
}

// The lowest used row of handle h in thread t, or the room.
// The room where there is none: specs/Table.antt has it so.
pub fn find(rows: &[Number], marks: &[u64], t: Number, h: Number) -> usize
    ensures { result ≡ found references (is_handle t h) (table rows.now marks.now) }
{
    let has = |x: Reference| x.handle == h;
    let is = |x: Reference| is_handle(x, t, h);
    row::find(rows, marks, &has, &is)
}

// How many rows of word w are of thread t and frame f. Where all rows of the word are used, those that match are those that count.
fn count_in(rows: &[Number], marks: &[u64], w: usize, t: Number, f: Number) -> Number
    requires { w * word + word ≤ room references (table rows.now marks.now) }
    ensures { (result ≡ how_many (in_word (passes references (in_frame t f) (table rows.now marks.now)) w) word) × (result ≤ word) }
{
    if marks[w] == 0 {
        return 0;
    }
    let is = |x: Reference| in_frame(x, t, f);
    let k = matching(rows, w, &is);
    if k == 0 {
        return 0;
    }
    if !marks[w] == 0 {
        return k;
    }
    count_first(rows, marks, w, WORD, &is)
}

// How many used rows are of thread t and frame f.
pub fn count(rows: &[Number], marks: &[u64], t: Number, f: Number) -> usize
    ensures { result ≡ counted references (in_frame t f) (table rows.now marks.now) }
{
    let n = room(rows, marks);
    let full = n / WORD;
    let mut sum: Number = 0;
    for w in 0..full {
        sum += count_in(rows, marks, w, t, f);
    }
    let is = |x: Reference| in_frame(x, t, f);
    (sum + count_first(rows, marks, full, n % WORD, &is)) as usize
}

// How many globals and weaks are alive: the used rows of thread 0. Row by row, since only the end of a trace asks.
pub fn globals(rows: &[Number], marks: &[u64]) -> usize
    ensures { result ≡ counted references (of_thread 0) (table rows.now marks.now) }
{
    let is = |x: Reference| of_thread(x, 0);
    count_first(rows, marks, 0, room(rows, marks), &is) as usize
}

// Ends row r, if it is used and of thread t and frame f or above.
fn end_if(rows: &mut [Number], marks: &mut [u64], r: usize, t: Number, f: Number)
    requires { r < room references (table rows.old marks.old) }
    ensures { table rows.new marks.new ≡ ended_if references (from_frame t f) (table rows.old marks.old) r }
{
    let is = |x: Reference| from_frame(x, t, f);
    if holds(rows, marks, r, &is) {
        end(rows, marks, r);
    }
}

// Ends such rows among the first m of word w.
fn end_first(rows: &mut [Number], marks: &mut [u64], w: usize, m: usize, t: Number, f: Number)
    requires { w * word + m ≤ room references (table rows.old marks.old) }
    ensures { table rows.new marks.new ≡ ended_from references (from_frame t f) (table rows.old marks.old) (w * word) m }
{
    for i in 0..m {
        end_if(rows, marks, w * WORD + i, t, f);
    }
}

// Ends such rows of word w.
fn end_in(rows: &mut [Number], marks: &mut [u64], w: usize, t: Number, f: Number)
    requires { w * word + word ≤ room references (table rows.old marks.old) }
    ensures { table rows.new marks.new ≡ ended_from references (from_frame t f) (table rows.old marks.old) (w * word) word }
{
    if marks[w] == 0 {
        return;
    }
    let is = |x: Reference| from_frame(x, t, f);
    if matching(rows, w, &is) != 0 {
        end_first(rows, marks, w, WORD, t, f);
    }
}

// Ends the used rows of thread t and frame f or above.
pub fn end_frames(rows: &mut [Number], marks: &mut [u64], t: Number, f: Number)
    ensures { table rows.new marks.new ≡ ended_all references (from_frame t f) (table rows.old marks.old) }
{
    let n = room(rows, marks);
    let full = n / WORD;
    for w in 0..full {
        end_in(rows, marks, w, t, f);
    }
    end_first(rows, marks, full, n % WORD, t, f);
}
