// C: weighed; where it is accepted, what it does.
ghost use Rattle.std.specs.Prelude.{◌≡◌, ℤ};
ghost use Rattle.lines.specs.Line.{C};
ghost use Rattle.book.specs.Threads.{top_is};
ghost use Rattle.tables.specs.Lent.{tables_of, Same, Led};
ghost use Rattle.events.specs.Outcome.{leaves, line_outcome};

use crate::{is_closed, told};
use answers::Answer;
use book::Top;
use tables::Lent;
use words::Handle;

// Line number `line`; `top` is on top of the thread's `many` open items.
pub fn call(
    lent: &mut Lent,
    top: Top,
    many: u32,
    line: u32,
    t: u32,
    env: Handle,
    f: u32,
    a: Handle,
    b: Handle,
    c: Handle,
) -> Answer
    ensures outcome { Led lent.old → (n : ℤ) → leaves result (tables_of lent.new) ≡ line_outcome line (C t env f a b c n) (top_is top) many (tables_of lent.old) }
    ensures same { Same lent.new lent.old }
    ensures led { Led lent.old → Led lent.new }
{
    weigh::call::allows(is_closed(lent), top, many)?;
    let seen = told::call(lent, t, f, a, b, c);
    let x = seen.a;
    let y = seen.b;
    let p = seen.pb;
    act::call::call(lent, t, f, a, x.row, p, y.row);
    Ok(weigh::call::findings(seen, line, env, f, a, b, c))
}
