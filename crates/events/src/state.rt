// O: weighed; where it is accepted, the class of its handle is stated.
ghost use Rattle.std.specs.Prelude.{◌≡◌, ℕ, Option};
ghost use Rattle.lines.specs.Line.{O, states};
ghost use Rattle.history.specs.Items.{Item};
ghost use Rattle.tables.specs.Lent.{tables_of, Same, Led};
ghost use Rattle.events.specs.Outcome.{leaves, line_outcome};

use crate::{is_closed, told};
use answers::{Answer, Findings};
use tables::Lent;
use words::Handle;

pub fn state(lent: &mut Lent, t: u32, h: Handle, c: u32) -> Answer
    ensures outcome { Led lent.old → (line : ℕ) (top : Option Item) (many : ℕ) → leaves result (tables_of lent.new) ≡ line_outcome line (states (O t h c)) top many (tables_of lent.old) }
    ensures same { Same lent.new lent.old }
    ensures led { Led lent.old → Led lent.new }
{
    let seen = told::state(lent, t, h, c);
    weigh::state::allows(is_closed(lent), seen)?;
    act::state::state(lent, seen.row, c);
    Ok(Findings::none())
}
