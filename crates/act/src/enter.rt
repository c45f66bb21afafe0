// N opens a frame, makes its handles as locals in it, and clears pending.
ghost use Rattle.std.specs.Prelude.{◌≡◌, false, ℕ};
ghost use Rattle.rows.specs.References.{references};
ghost use Rattle.lines.specs.Line.{N};
ghost use Rattle.tables.specs.Acting.{all_taken, env_kept, acted};
ghost use Rattle.tables.specs.Lent.{tables_of, Same, Led, with_references};
ghost use Rattle.act.specs.Rows.{locals};
ghost use Rattle.act.specs.Books.{entered_book};

use crate::frames::frames_of;
use facts::classes::NO_CLASS;
use rows::Number;
use rows::references::Reference;
use tables::{Lent, kept};
use words::Handle;

// The room for new locals in a native's frame; its handles come on top.
const NEW_LOCALS: u64 = 16;

// A row for each handle, in their order; no class is stated of them.
fn take_all(lent: &mut Lent, line: u32, t: u32, d: u32, hs: &[Handle])
    ensures left { Led lent.old → tables_of lent.new ≡ with_references (tables_of lent.old) (all_taken references (tables_of lent.old).references (locals line t d hs.now)) }
    ensures same { Same lent.new lent.old }
    ensures led { Led lent.old → Led lent.new }
{
    for h in hs {
        kept::take(
            lent,
            Reference {
                thread: t as Number,
                handle: *h,
                frame: d as Number,
                line: line as Number,
                class: NO_CLASS as Number,
            },
        );
    }
}

// A thread's env is that of its first N.
fn keep_env(book: &mut [u64], t: u32, env: Handle)
    ensures { book.new ≡ env_kept book.old t env }
{
    if book::env_of(book, t) == 0 {
        book::set_env(book, t, env);
    }
}

// What N does to the book, all but the open items.
pub fn write_book(book: &mut [u64], t: u32, env: Handle, hs: &[Handle])
    ensures { book.new ≡ entered_book book.old t env hs.now }
{
    book::push_frame(book, t, NEW_LOCALS + hs.len() as u64, false);
    keep_env(book, t, env);
    book::set_pending(book, t, 0);
    book::count_line(book);
}

// Line number `line`.
pub fn enter(lent: &mut Lent, line: u32, t: u32, env: Handle, hs: &[Handle])
    ensures left { Led lent.old → (n : ℕ) → tables_of lent.new ≡ acted line (N t env hs.now) n (tables_of lent.old) }
    ensures same { Same lent.new lent.old }
    ensures led { Led lent.old → Led lent.new }
{
    let d = frames_of(lent, t);
    take_all(lent, line, t, d + 1, hs);
    write_book(lent.book, t, env, hs);
}
