// R makes its result, and with status 0 pushes a frame, raises a capacity, or adds or takes a monitor.
ghost use Rattle.std.specs.Prelude.{◌≡◌, true, not, ◌&&◌, eqb, ◌+◌, ◌≤◌};
ghost use Rattle.facts.specs.Results.{is_handle_result, is_buffer_result};
ghost use Rattle.rows.specs.Table.{most};
ghost use Rattle.book.specs.Moves.{capacity_raised};
ghost use Rattle.tables.specs.Acting.{status_acted};
ghost use Rattle.tables.specs.Lent.{tables_of, Same, Led, NextRow, NextPin, with_references, with_pins, with_book};
ghost use Rattle.act.specs.Returns.{result_row, made, got, held, status_taken, returned_book, returned};

use super::owner::pin_owner;
use crate::frames::frames_of;
use facts::Result;
use facts::classes::class_made;
use facts::functions::{ENSURE_LOCAL_CAPACITY, MONITOR_ENTER, MONITOR_EXIT, PUSH_LOCAL_FRAME};
use facts::results::{is_buffer_result, is_handle_result, is_local_result};
use rows::Number;
use rows::pins::Pin;
use rows::references::Reference;
use tables::{Lent, kept, kept_pins};
use words::Handle;

// ---- the result

// The row of result h: a local's in frame d of its thread, another's in no thread.
pub fn row_of(line: u32, kind: Result, t: u32, d: u32, h: Handle, class: u32) -> Reference
    ensures { result ≡ result_row line kind t d h class }
{
    let (thread, frame) = if is_local_result(kind) {
        (t, d)
    } else {
        (0, 0)
    };
    Reference {
        thread: thread as Number,
        handle: h,
        frame: frame as Number,
        line: line as Number,
        class: class as Number,
    }
}

fn make(lent: &mut Lent, line: u32, kind: Result, t: u32, d: u32, f: u32, h: Handle, row: usize)
    ensures left { tables_of lent.new ≡ with_references (tables_of lent.old) (made (tables_of lent.old).references line kind t d f h row) }
    ensures same { Same lent.new lent.old }
    ensures led { Led lent.old → ((is_handle_result kind && not (eqb h 0)) ≡ true → NextRow lent.old row) → Led lent.new }
{
    if is_handle_result(kind) & (h != 0) {
        let x = row_of(line, kind, t, d, h, class_made(f));
        kept::store(lent, row, x);
    }
}

fn get(lent: &mut Lent, line: u32, kind: Result, t: u32, f: u32, h: Handle, row: usize)
    ensures left { tables_of lent.new ≡ with_pins (tables_of lent.old) (got (tables_of lent.old).pins line kind t f h row) }
    ensures same { Same lent.new lent.old }
    ensures led { Led lent.old → ((is_buffer_result kind && not (eqb h 0)) ≡ true → NextPin lent.old row) → Led lent.new }
{
    if is_buffer_result(kind) & (h != 0) {
        let k = facts::family(f);
        let x = Pin {
            thread: pin_owner(t, k) as Number,
            family: k as Number,
            buffer: h,
            line: line as Number,
        };
        kept_pins::store(lent, row, x);
    }
}

// ---- the status

// How many locals are alive in the thread's top frame.
fn held(lent: &Lent, t: u32) -> usize
    ensures { (result ≡ held (tables_of lent.now).references lent.now.book.now t) × (result ≤ most) }
{
    if t == 0 {
        return 0;
    }
    let d = frames_of(lent, t);
    rows::references::count(lent.rows, lent.marks, t as Number, d as Number)
}

fn ensure_capacity(lent: &mut Lent, t: u32, n: u32)
    ensures left { tables_of lent.new ≡ with_book (tables_of lent.old) (capacity_raised lent.old.book.now t (held (tables_of lent.old).references lent.old.book.now t + n)) }
    ensures same { Same lent.new lent.old }
    ensures led { Led lent.old → Led lent.new }
{
    let k = held(lent, t);
    book::raise_capacity(lent.book, t, k as u64 + n as u64);
}

// Status 0: n was asked of the open call.
fn succeed(lent: &mut Lent, t: u32, f: u32, n: u32)
    ensures left { tables_of lent.new ≡ with_book (tables_of lent.old) (status_acted lent.old.book.now t f (held (tables_of lent.old).references lent.old.book.now t) n) }
    ensures same { Same lent.new lent.old }
    ensures led { Led lent.old → Led lent.new }
{
    match f {
        PUSH_LOCAL_FRAME => book::push_frame(lent.book, t, n as u64, true),
        ENSURE_LOCAL_CAPACITY => ensure_capacity(lent, t, n),
        MONITOR_ENTER => book::add_monitor(lent.book, t),
        MONITOR_EXIT => book::take_monitor(lent.book, t),
        _ => {}
    }
}

// Another status does nothing.
fn take_status(lent: &mut Lent, t: u32, f: u32, status: i32, n: u32)
    ensures left { tables_of lent.new ≡ with_book (tables_of lent.old) (status_taken (tables_of lent.old).references lent.old.book.now t f status n) }
    ensures same { Same lent.new lent.old }
    ensures led { Led lent.old → Led lent.new }
{
    if status == 0 {
        succeed(lent, t, f, n);
    }
}

// What R does to the book, all but the open items; n was asked of the open call.
pub fn write_book(lent: &mut Lent, t: u32, f: u32, status: i32, pending: u32, n: u32)
    ensures left { tables_of lent.new ≡ with_book (tables_of lent.old) (returned_book (tables_of lent.old).references lent.old.book.now t f status pending n) }
    ensures same { Same lent.new lent.old }
    ensures led { Led lent.old → Led lent.new }
{
    take_status(lent, t, f, status, n);
    book::set_pending(lent.book, t, pending as u64);
    book::count_line(lent.book);
}

// A result that is nonzero, of this kind, takes this row: the caller asked for the lowest free one. Line number `line`.
pub fn returns(
    lent: &mut Lent,
    line: u32,
    kind: Result,
    row: usize,
    t: u32,
    f: u32,
    res: Handle,
    status: i32,
    pending: u32,
    n: u32,
)
    ensures left { tables_of lent.new ≡ returned (tables_of lent.old) line kind row t f res status pending n }
    ensures same { Same lent.new lent.old }
    ensures led { Led lent.old → ((is_handle_result kind && not (eqb res 0)) ≡ true → NextRow lent.old row) → ((is_buffer_result kind && not (eqb res 0)) ≡ true → NextPin lent.old row) → Led lent.new }
{
    let d = frames_of(lent, t);
    write_book(lent, t, f, status, pending, n);
    make(lent, line, kind, t, d, f, res, row);
    get(lent, line, kind, t, f, res, row);
}
