// N: weighed; where it is accepted, what it does.
ghost use Rattle.std.specs.Prelude.{◌≡◌};
ghost use Rattle.lines.specs.Line.{N};
ghost use Rattle.book.specs.Threads.{top_is};
ghost use Rattle.tables.specs.Lent.{tables_of, Same, Led};
ghost use Rattle.events.specs.Outcome.{leaves, line_outcome};

use crate::{is_closed, told};
use answers::{Answer, Findings};
use book::Top;
use lines::refusal::Refusal;
use tables::Lent;
use words::Handle;

// Line number `line`; `top` is on top of the thread's `many` open items.
pub fn enter(
    lent: &mut Lent,
    top: Top,
    many: u32,
    line: u32,
    t: u32,
    env: Handle,
    hs: &[Handle],
) -> Answer
    ensures outcome { Led lent.old → leaves result (tables_of lent.new) ≡ line_outcome line (N t env hs.now) (top_is top) many (tables_of lent.old) }
    ensures same { Same lent.new lent.old }
    ensures led { Led lent.old → Led lent.new }
{
    if !weigh::enter::in_turn(is_closed(lent), top) {
        return Err(Refusal::OutOfStep);
    }
    let seen = told::enter(lent, t, env, hs);
    weigh::enter::allows(seen, many, env, hs)?;
    act::enter::enter(lent, line, t, env, hs);
    Ok(Findings::none())
}
