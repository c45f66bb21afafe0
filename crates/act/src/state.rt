// O states the class of a handle, whose row is told.
ghost use Rattle.std.specs.Prelude.{◌≡◌};
ghost use Rattle.tables.specs.Lent.{tables_of, Same, Led};
ghost use Rattle.act.specs.Statements.{stated};

use rows::Number;
use tables::{Lent, kept};

// The handle stands in row `row`: the caller looked it up.
pub fn state(lent: &mut Lent, row: usize, class: u32)
    ensures left { tables_of lent.new ≡ stated (tables_of lent.old) row class }
    ensures same { Same lent.new lent.old }
    ensures led { Led lent.old → Led lent.new }
{
    kept::state(lent, row, class as Number);
    book::count_line(lent.book);
}
