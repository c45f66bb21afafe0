// What is seen in the lent rows: handles alive and buffers outstanding. Where a guide is lent too they are looked up by it.
ghost use Rattle.std.specs.Prelude.{◌≡◌, ltb};
ghost use Rattle.rows.specs.Table.{free_row, alive, found};
ghost use Rattle.rows.specs.References.{references, is_handle};
ghost use Rattle.rows.specs.Pins.{pins, is_buffer};
ghost use Rattle.history.specs.Handles.{in_frame};
ghost use Rattle.history.specs.Buffers.{critical_of};
ghost use Rattle.tables.specs.Tables.{handles_in, buffers_in};
ghost use Rattle.tables.specs.Looked.{table_of, RowsLed, PinsLed};

use rows::Number;
use tables::Looked;
use words::Handle;

// The guides have a number for each frame to this one of each thread to this one.
const THREADS: u32 = 16;

const FRAMES: u32 = 64;

// The lowest row of handle h in thread t, or the room.
pub(crate) fn row_of(rows: Looked, t: u32, h: Handle) -> usize
    ensures { RowsLed rows.entry → result ≡ found references (is_handle t h) (table_of rows.entry) }
{
    guide::references::find(rows.rows, rows.marks, rows.guide, t as Number, h)
}

// The lowest row of buffer b of family f, of thread t, or the room.
pub(crate) fn pin_row_of(rows: Looked, t: u32, f: u32, b: Handle) -> usize
    ensures { PinsLed rows.entry → result ≡ found pins (is_buffer t f b) (table_of rows.entry) }
{
    guide::pins::find(
        rows.rows,
        rows.marks,
        rows.guide,
        t as Number,
        f as Number,
        b,
    )
}

// How many locals are alive in a frame of the thread.
pub(crate) fn alive_in(rows: Looked, t: u32, d: u32) -> usize
    ensures { RowsLed rows.entry → result ≡ handles_in (table_of rows.entry) (in_frame t d) }
{
    if t == 0 {
        return 0;
    }
    if rows.guide.is_empty() | (THREADS < t) | (FRAMES < d) {
        return rows::references::count(rows.rows, rows.marks, t as Number, d as Number);
    }
    guide::references::held(rows.guide, t as Number, d as Number) as usize
}

// How many rows are used.
pub(crate) fn used_rows(rows: Looked) -> usize
    ensures { RowsLed rows.entry → result ≡ alive references (table_of rows.entry) }
{
    if rows.guide.is_empty() {
        return rows::references::alive(rows.rows, rows.marks);
    }
    guide::references::used(rows.guide) as usize
}

// The lowest free row, or the room.
pub(crate) fn lowest_free(rows: Looked) -> usize
    ensures { RowsLed rows.entry → result ≡ free_row references (table_of rows.entry) }
{
    guide::references::lowest_free(rows.rows, rows.marks, rows.guide)
}

// A critical buffer of the thread is outstanding.
pub(crate) fn in_critical(rows: Looked, t: u32) -> bool
    ensures { PinsLed rows.entry → result ≡ ltb 0 (buffers_in (table_of rows.entry) (critical_of t)) }
{
    if t == 0 {
        return false;
    }
    if rows.guide.is_empty() | (THREADS < t) {
        return rows::pins::outstanding(rows.rows, rows.marks, t as Number);
    }
    0 < guide::pins::held(rows.guide, t as Number)
}
