// Z closes the trace.
ghost use Rattle.std.specs.Prelude.{◌≡◌, ℕ};
ghost use Rattle.lines.specs.Line.{Z};
ghost use Rattle.tables.specs.Acting.{acted};
ghost use Rattle.tables.specs.Lent.{tables_of, Same, Led};

use tables::Lent;

pub fn end(lent: &mut Lent)
    ensures left { (line n : ℕ) → tables_of lent.new ≡ acted line Z n (tables_of lent.old) }
    ensures same { Same lent.new lent.old }
    ensures led { Led lent.old → Led lent.new }
{
    book::set_closed(lent.book);
    book::count_line(lent.book);
}
