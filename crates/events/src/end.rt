// Z: weighed; where it is accepted, the trace is closed.
ghost use Rattle.std.specs.Prelude.{◌≡◌, ℕ, Option};
ghost use Rattle.lines.specs.Line.{Z};
ghost use Rattle.history.specs.Items.{Item};
ghost use Rattle.tables.specs.Lent.{tables_of, Same, Led};
ghost use Rattle.events.specs.Outcome.{leaves, line_outcome};

use crate::{is_closed, told};
use answers::Answer;
use lines::refusal::Refusal;
use tables::Lent;

// Line number `line`.
pub fn end(lent: &mut Lent, line: u32) -> Answer
    ensures outcome { (top : Option Item) (many : ℕ) → leaves result (tables_of lent.new) ≡ line_outcome line Z top many (tables_of lent.old) }
    ensures same { Same lent.new lent.old }
    ensures led { Led lent.old → Led lent.new }
{
    if is_closed(lent) {
        return Err(Refusal::OutOfStep);
    }
    let seen = told::end(lent);
    act::end::end(lent);
    Ok(weigh::end::findings(seen, line))
}
