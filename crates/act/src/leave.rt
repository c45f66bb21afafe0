// X ends all locals and frames of its native, pushed frames included.
ghost use Rattle.std.specs.Prelude.{◌≡◌, ◌≤◌, ℕ, length};
ghost use Rattle.lines.specs.Line.{X};
ghost use Rattle.history.specs.Frames.{without_native};
ghost use Rattle.history.specs.Acceptance.{deepest};
ghost use Rattle.book.specs.Threads.{thread_in};
ghost use Rattle.tables.specs.Acting.{acted};
ghost use Rattle.tables.specs.Lent.{tables_of, Same, Led};
ghost use Rattle.act.specs.Books.{left_book};

use rows::Number;
use tables::{Lent, kept};

// What X does to the book, all but the open items.
pub fn write_book(book: &mut [u64], t: u32)
    ensures { book.new ≡ left_book book.old t }
{
    book::leave_native(book, t);
    book::count_line(book);
}

fn frames_left(lent: &Lent, t: u32) -> u32
    ensures { (result ≡ length (without_native (thread_in lent.now.book.now t).frames)) × (result ≤ deepest) }
{
    book::frames_left(lent.book, t)
}

pub fn leave(lent: &mut Lent, t: u32)
    ensures left { Led lent.old → (line n r : ℕ) → tables_of lent.new ≡ acted line (X t r) n (tables_of lent.old) }
    ensures same { Same lent.new lent.old }
    ensures led { Led lent.old → Led lent.new }
{
    let d = frames_left(lent, t);
    kept::end_frames(lent, t as Number, (d + 1) as Number);
    write_book(lent.book, t);
}
