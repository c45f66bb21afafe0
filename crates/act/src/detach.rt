// D ends all locals and frames of its thread, and drops its monitors.
ghost use Rattle.std.specs.Prelude.{◌≡◌, ℕ};
ghost use Rattle.lines.specs.Line.{D};
ghost use Rattle.tables.specs.Acting.{acted};
ghost use Rattle.tables.specs.Lent.{tables_of, Same, Led};
ghost use Rattle.act.specs.Books.{detached_book};

use rows::Number;
use tables::{Lent, kept};

// What D does to the book, all but the open items.
pub fn write_book(book: &mut [u64], t: u32)
    ensures { book.new ≡ detached_book book.old t }
{
    book::end_frames(book, t);
    book::drop_monitors(book, t);
    book::count_line(book);
}

pub fn detach(lent: &mut Lent, t: u32)
    ensures left { Led lent.old → (line n : ℕ) → tables_of lent.new ≡ acted line (D t) n (tables_of lent.old) }
    ensures same { Same lent.new lent.old }
    ensures led { Led lent.old → Led lent.new }
{
    kept::end_frames(lent, t as Number, 1);
    write_book(lent.book, t);
}
