// K declares a class.
ghost use Rattle.std.specs.Prelude.{◌≡◌, ℕ};
ghost use Rattle.lines.specs.Line.{K, states};
ghost use Rattle.tables.specs.Acting.{acted};
ghost use Rattle.tables.specs.Lent.{tables_of, Same, Led};

use tables::Lent;

pub fn declare(lent: &mut Lent, c: u32, superclass: u32)
    ensures left { (line n : ℕ) → tables_of lent.new ≡ acted line (states (K c superclass)) n (tables_of lent.old) }
    ensures same { Same lent.new lent.old }
    ensures led { Led lent.old → Led lent.new }
{
    classes::declare(lent.classes, c, superclass);
    book::count_line(lent.book);
}
