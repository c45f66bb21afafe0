// Pin rows: thread, family and buffer of each buffer that is outstanding, and the line that made it.
ghost use Rattle.std.specs.Prelude.{◌≡◌, get_or, None, refl};
ghost use Rattle.std.proofs.Common.{rules};
ghost use Rattle.rows.specs.Table.{table, room, free_row, alive, found, some_row, stored, ended};
ghost use Rattle.rows.specs.View.{view};
ghost use Rattle.rows.specs.Pins.{pins, of_thread, is_buffer};

use super::Number;
use super::row::{self, Row};

// Numbers to a row: what a caller lends for so many rows.
pub const STRIDE: usize = 4;

// A row: thread is 0 unless the family is critical.
#[derive(Clone, Copy)]
pub struct Pin {
    pub thread: Number,
    pub family: Number,
    pub buffer: Number,
    pub line: Number,
}

impl Row for Pin {
    ghost layout = { pins };

    ghost STRIDE = { 4 };

    ghost strides = { refl };

    ghost wide = { Prim.search rules };

    const STRIDE: usize = STRIDE;

    fn read(rows: &[Number], r: usize) -> Pin {
        let at = r * STRIDE;
        Pin {
            thread: rows[at],
            family: rows[at + 1],
            buffer: rows[at + 2],
            line: rows[at + 3],
        }
    }

    fn write(self, rows: &mut [Number], r: usize) {
        let at = r * STRIDE;
        rows[at] = self.thread;
        rows[at + 1] = self.family;
        rows[at + 2] = self.buffer;
        rows[at + 3] = self.line;
    }
}

// The lesser of rows and marks, at most 65,536.
pub fn room(rows: &[Number], marks: &[u64]) -> usize
    ensures { result ≡ room pins (table rows.now marks.now) }
{
    row::room::<Pin>(rows, marks)
}

// The lowest free row, or the room.
// The room where there is none: specs/Table.antt has it so.
pub fn lowest_free(rows: &[Number], marks: &[u64]) -> usize
    ensures { result ≡ free_row pins (table rows.now marks.now) }
{
    row::lowest_free::<Pin>(rows, marks)
}

// How many rows are alive: the buffers outstanding.
pub fn alive(rows: &[Number], marks: &[u64]) -> usize
    ensures { result ≡ alive pins (table rows.now marks.now) }
{
    row::alive::<Pin>(rows, marks)
}

// What stands in row r of the room, where it is used.
pub fn slot(rows: &[Number], marks: &[u64], r: usize) -> Option<Pin>
    ensures { result ≡ get_or (view pins (table rows.now marks.now)) r None }
{
    row::slot(rows, marks, r)
}

// Row r holds this and is marked; nothing where there is no row r.
pub fn store(rows: &mut [Number], marks: &mut [u64], r: usize, row: Pin)
    ensures { table rows.new marks.new ≡ stored pins (table rows.old marks.old) r row }
{
    row::store(rows, marks, r, row);
}

// Ends row r; nothing where there is no row r.
pub fn end(rows: &mut [Number], marks: &mut [u64], r: usize)
    ensures { table rows.new marks.new ≡ ended pins (table rows.old marks.old) r }
{
    row::end::<Pin>(rows, marks, r);
}

// The row is of thread t.
fn of_thread(row: Pin, t: Number) -> bool
    ensures { result ≡ of_thread t row }
{
    row.thread == t
}

// The row is that of buffer b of family f, of thread t. No branch, so that a count of such rows is compiled to vectors.
fn is_buffer(row: Pin, t: Number, f: Number, b: Number) -> bool
    ensures { result ≡ is_buffer t f b row }
{
    (row.buffer == b) & (row.family == f) & (row.thread == t)
}

// The lowest used row of buffer b of family f, of thread t, or the room.
// The room where there is none: specs/Table.antt has it so.
pub fn find(rows: &[Number], marks: &[u64], t: Number, f: Number, b: Number) -> usize
    ensures { result ≡ found pins (is_buffer t f b) (table rows.now marks.now) }
{
    let is = |x: Pin| is_buffer(x, t, f, b);
    row::find(rows, marks, &is, &is)
}

// Whether a buffer of thread t is outstanding: of a thread from 1 that is a critical one.
pub fn outstanding(rows: &[Number], marks: &[u64], t: Number) -> bool
    ensures { result ≡ some_row pins (of_thread t) (table rows.now marks.now) }
{
    let own = |x: Pin| of_thread(x, t);
    row::find(rows, marks, &own, &own) < room(rows, marks)
}
