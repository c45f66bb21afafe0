// K: weighed; where it is accepted, the class is declared.
ghost use Rattle.std.specs.Prelude.{◌≡◌, ℕ, Option};
ghost use Rattle.lines.specs.Line.{K, states};
ghost use Rattle.history.specs.Items.{Item};
ghost use Rattle.tables.specs.Lent.{tables_of, Same, Led};
ghost use Rattle.events.specs.Outcome.{leaves, line_outcome};

use crate::{is_closed, told};
use answers::{Answer, Findings};
use tables::Lent;

pub fn declare(lent: &mut Lent, c: u32, superclass: u32) -> Answer
    ensures outcome { (line : ℕ) (top : Option Item) (many : ℕ) → leaves result (tables_of lent.new) ≡ line_outcome line (states (K c superclass)) top many (tables_of lent.old) }
    ensures same { Same lent.new lent.old }
    ensures led { Led lent.old → Led lent.new }
{
    let seen = told::declare(lent, c, superclass);
    weigh::declare::allows(is_closed(lent), seen)?;
    act::declare::declare(lent, c, superclass);
    Ok(Findings::none())
}
