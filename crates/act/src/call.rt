// C ends the handle that it deletes, the frame that it pops, or the buffer that it releases. The rows are told.
ghost use Rattle.std.specs.Prelude.{◌≡◌, ◌&&◌, eqb};
ghost use Rattle.facts.specs.Named.{PopLocalFrame};
ghost use Rattle.history.specs.Frames.{top_pushed};
ghost use Rattle.book.specs.Threads.{thread_in};
ghost use Rattle.tables.specs.Acting.{is_delete};
ghost use Rattle.tables.specs.Lent.{tables_of, Same, Led, with_references, with_pins};
ghost use Rattle.act.specs.Books.{popped, called_book};
ghost use Rattle.act.specs.Calls.{deleted, top_ended, released, called};

use crate::frames::frames_of;
use facts::Place;
use facts::functions::{
    DELETE_GLOBAL_REF, DELETE_LOCAL_REF, DELETE_WEAK_GLOBAL_REF, POP_LOCAL_FRAME,
};
use facts::handles::{GLOBAL, KINDS, LOCAL, WEAK};
use facts::results::is_buffer_place;
use rows::Number;
use tables::{Lent, kept, kept_pins};
use words::Handle;

// C of 22, 23 or 227 where the handle in a is of the kind that it deletes.
pub fn is_delete(f: u32, a: Handle) -> bool
    ensures { result ≡ is_delete f a }
{
    ((f == DELETE_LOCAL_REF) & (a % KINDS == LOCAL))
        | ((f == DELETE_GLOBAL_REF) & (a % KINDS == GLOBAL))
        | ((f == DELETE_WEAK_GLOBAL_REF) & (a % KINDS == WEAK))
}

fn delete(lent: &mut Lent, f: u32, a: Handle, row: usize)
    ensures left { tables_of lent.new ≡ with_references (tables_of lent.old) (deleted (tables_of lent.old).references f a row) }
    ensures same { Same lent.new lent.old }
    ensures led { Led lent.old → Led lent.new }
{
    if is_delete(f, a) {
        kept::end(lent, row);
    }
}

// C of 20 where the top frame was pushed.
fn pops(lent: &Lent, t: u32, f: u32) -> bool
    ensures { result ≡ (eqb f PopLocalFrame && top_pushed (thread_in lent.now.book.now t).frames) }
{
    f == POP_LOCAL_FRAME && book::top_pushed(lent.book, t)
}

fn end_top(lent: &mut Lent, t: u32, f: u32)
    ensures left { Led lent.old → tables_of lent.new ≡ with_references (tables_of lent.old) (top_ended (tables_of lent.old).references lent.old.book.now t f) }
    ensures same { Same lent.new lent.old }
    ensures led { Led lent.old → Led lent.new }
{
    if pops(lent, t, f) {
        let d = frames_of(lent, t);
        kept::end_frames(lent, t as Number, d as Number);
    }
}

fn release(lent: &mut Lent, place: Place, row: usize)
    ensures left { tables_of lent.new ≡ with_pins (tables_of lent.old) (released (tables_of lent.old).pins place row) }
    ensures same { Same lent.new lent.old }
    ensures led { Led lent.old → Led lent.new }
{
    if is_buffer_place(place) {
        kept_pins::end(lent, row);
    }
}

fn pop(book: &mut [u64], t: u32, f: u32)
    ensures { book.new ≡ popped book.old t f }
{
    if f == POP_LOCAL_FRAME {
        book::pop_frame(book, t);
    }
}

// What C does to the book, all but the open items.
pub fn write_book(book: &mut [u64], t: u32, f: u32)
    ensures { book.new ≡ called_book book.old t f }
{
    pop(book, t, f);
    book::count_line(book);
}

// The handle in a stands in row `row`, place b is `place`, and a buffer there in row `pinrow`: the caller looked them up.
pub fn call(lent: &mut Lent, t: u32, f: u32, a: Handle, row: usize, place: Place, pinrow: usize)
    ensures left { Led lent.old → tables_of lent.new ≡ called (tables_of lent.old) t f a row place pinrow }
    ensures same { Same lent.new lent.old }
    ensures led { Led lent.old → Led lent.new }
{
    delete(lent, f, a, row);
    end_top(lent, t, f);
    release(lent, place, pinrow);
    write_book(lent.book, t, f);
}
