// M: weighed; where it is accepted, what its identity is is stated.
ghost use Rattle.std.specs.Prelude.{◌≡◌, ℕ, Option};
ghost use Rattle.lines.specs.Line.{M as line_M, states};
ghost use Rattle.history.specs.Items.{Item};
ghost use Rattle.tables.specs.Lent.{tables_of, Same, Led};
ghost use Rattle.events.specs.Outcome.{leaves, line_outcome};

use crate::{is_closed, told};
use answers::{Answer, Findings};
use tables::Lent;
use words::Handle;

pub fn identify(
    lent: &mut Lent,
    x: Handle,
    sort: u32,
    c: u32,
    isstatic: u32,
    isfinal: u32,
) -> Answer
    ensures outcome { (line : ℕ) (top : Option Item) (many : ℕ) → leaves result (tables_of lent.new) ≡ line_outcome line (states (line_M x sort c isstatic isfinal)) top many (tables_of lent.old) }
    ensures same { Same lent.new lent.old }
    ensures led { Led lent.old → Led lent.new }
{
    let seen = told::identify(lent, x, c);
    weigh::identify::allows(is_closed(lent), seen)?;
    act::identify::identify(lent, seen.place, x, sort, isstatic, isfinal);
    Ok(Findings::none())
}
