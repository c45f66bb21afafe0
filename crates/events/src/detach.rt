// D: weighed; where it is accepted, what it does.
ghost use Rattle.std.specs.Prelude.{◌≡◌, ℕ};
ghost use Rattle.lines.specs.Line.{D};
ghost use Rattle.book.specs.Threads.{top_is};
ghost use Rattle.tables.specs.Lent.{tables_of, Same, Led};
ghost use Rattle.events.specs.Outcome.{leaves, line_outcome};

use crate::{is_closed, told};
use answers::Answer;
use book::Top;
use tables::Lent;

// Line number `line`; `top` is on top of the thread's open items.
pub fn detach(lent: &mut Lent, top: Top, line: u32, t: u32) -> Answer
    ensures outcome { Led lent.old → (many : ℕ) → leaves result (tables_of lent.new) ≡ line_outcome line (D t) (top_is top) many (tables_of lent.old) }
    ensures same { Same lent.new lent.old }
    ensures led { Led lent.old → Led lent.new }
{
    weigh::detach::allows(is_closed(lent), top)?;
    let seen = told::detach(lent, t);
    act::detach::detach(lent, t);
    Ok(weigh::detach::findings(seen, line))
}
