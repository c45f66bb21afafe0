// R: what its refusals and its finding look at, and the row that its result will take.
ghost use Rattle.std.specs.Prelude.{◌≡◌, List, ℕ};
ghost use Rattle.tables.specs.Looked.{table_of, with_all, RowsLed};
ghost use Rattle.sight.specs.Returns.{nothing_made, handle_made, buffer_made, made_sight, over_capacity, overflows_in, return_sight};

use crate::seen::{alive_in, lowest_free};
use crate::spot::looked_up;
use facts::Result;
use facts::results::{is_buffer_result, is_handle_result, is_local_result};
use tables::Looked;
use words::Handle;

// What is made: whether it is alive already, the lowest free row of its table, and whether that is one of the room.
// `row` beside `fits`, and no Option: a null result fits and takes no row, and `act::returns` takes a row of any caller.
#[derive(Clone, Copy)]
pub struct Made {
    pub alive: bool,
    pub row: usize,
    pub fits: bool,
}

#[derive(Clone, Copy)]
pub struct ReturnSight {
    pub kind: Result,
    pub made: Made,
    pub frames: u32,
    pub over: bool,
}

fn nothing_made() -> Made
    ensures { result ≡ nothing_made }
{
    Made {
        alive: false,
        row: 0,
        fits: true,
    }
}

fn handle_made(references: Looked, local: bool, t: u32, h: Handle) -> Made
    ensures { RowsLed references.entry → result ≡ handle_made local (table_of references.entry) t h }
{
    let at = looked_up(references, local, t, h);
    let row = lowest_free(references);
    let room = rows::references::room(references.rows, references.marks);
    Made {
        alive: at.there,
        row,
        fits: row < room,
    }
}

fn buffer_made(pins: Looked) -> Made
    ensures { result ≡ buffer_made (table_of pins.entry) }
{
    let row = rows::pins::lowest_free(pins.rows, pins.marks);
    let room = rows::pins::room(pins.rows, pins.marks);
    Made {
        alive: false,
        row,
        fits: row < room,
    }
}

fn what_is_made(references: Looked, pins: Looked, kind: Result, t: u32, h: Handle) -> Made
    ensures { RowsLed references.entry → result ≡ made_sight (table_of references.entry) (table_of pins.entry) kind t h }
{
    if h == 0 {
        return nothing_made();
    }
    if is_handle_result(kind) {
        return handle_made(references, is_local_result(kind), t, h);
    }
    if is_buffer_result(kind) {
        return buffer_made(pins);
    }
    nothing_made()
}

// One local more is more than the top frame's capacity.
fn over_capacity(references: Looked, book: &[u64], t: u32) -> bool
    ensures { RowsLed references.entry → result ≡ over_capacity (table_of references.entry) book.now t }
{
    let d = book::frames_of(book, t);
    let held = alive_in(references, t, d) as u64;
    (0 < d) & (book::top_capacity(book, t) <= held)
}

// A local that is made is more than the top frame's capacity.
fn overflows(references: Looked, book: &[u64], kind: Result, t: u32, h: Handle) -> bool
    ensures { RowsLed references.entry → result ≡ overflows_in (table_of references.entry) book.now kind t h }
{
    if is_local_result(kind) & (h != 0) {
        return over_capacity(references, book, t);
    }
    false
}

pub fn returns(
    references: Looked,
    pins: Looked,
    book: &[u64],
    t: u32,
    f: u32,
    h: Handle,
) -> ReturnSight
    ensures { RowsLed references.entry → (cs : List ℕ) → result ≡ return_sight (with_all (table_of references.entry) (table_of pins.entry) book.now cs) t f h }
{
    let kind = facts::result_of(f);
    let new = what_is_made(references, pins, kind, t, h);
    let frames = book::frames_of(book, t);
    let over = overflows(references, book, kind, t, h);
    ReturnSight {
        kind,
        made: new,
        frames,
        over,
    }
}
