// Rows of numbers and a mark for each, in slices that the caller lends: reference rows and pin rows.
#![tactic(auto)]

mod marks;
pub mod pins;
pub mod references;
mod row;

// What rows are made of: numbers as wide as a handle.
pub type Number = words::Handle;

// Marks to a word.
pub const WORD: usize = 64;

// The most rows of a room.
pub const MOST: usize = 65536;

ghost use Rattle.std.specs.Prelude.{◌≡◌, ◌+◌, ◌*◌, ◌≤◌, length, replicate};
ghost use Rattle.rows.specs.Table.{table, put_row, cleared};

// All numbers of row r 0, so many to a row.
pub(crate) fn clear_row(rows: &mut [Number], stride: usize, r: usize)
    requires { r * stride + stride ≤ length rows.old }
    ensures { rows.new ≡ put_row stride rows.old r (replicate stride 0) }
{
    let at = r * stride;
    rows[at..at + stride].fill(0);
}

// Clears all rows and marks of a table, of either sort.
pub fn clear(rows: &mut [Number], marks: &mut [u64])
    ensures { table rows.new marks.new ≡ cleared (table rows.old marks.old) }
{
    rows.fill(0);
    marks.fill(0);
}
