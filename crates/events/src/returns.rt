// R: weighed; where it is accepted, what it does.
ghost use Rattle.std.specs.Prelude.{◌≡◌, ℕ};
ghost use Rattle.lines.specs.Line.{R};
ghost use Rattle.lines.specs.Events.{result_in_line};
ghost use Rattle.history.specs.Items.{asked};
ghost use Rattle.book.specs.Threads.{top_is};
ghost use Rattle.tables.specs.Lent.{tables_of, Same, Led};
ghost use Rattle.events.specs.Outcome.{leaves, line_outcome};

use crate::{is_closed, told};
use answers::Answer;
use book::{Item, Top};
use lines::refusal::Refusal;
use tables::Lent;
use words::Handle;

// max(n,0) of the C of the call on top; 0 where no call is.
pub fn capacity_asked(top: Top) -> u32
    ensures { result ≡ asked (top_is top) }
{
    let Some(item) = top else { return 0 };
    if let Item::Call(_, n) = item {
        return n;
    }
    0
}

// Line number `line`; `top` is on top of the thread's open items.
pub fn returns(
    lent: &mut Lent,
    top: Top,
    line: u32,
    t: u32,
    f: u32,
    res: Handle,
    status: i32,
    pending: u32,
) -> Answer
    ensures outcome { Led lent.old → (many : ℕ) → leaves result (tables_of lent.new) ≡ line_outcome line (R t f (result_in_line f res status) pending) (top_is top) many (tables_of lent.old) }
    ensures same { Same lent.new lent.old }
    ensures led { Led lent.old → Led lent.new }
{
    if !weigh::returns::in_turn(is_closed(lent), f, top) {
        return Err(Refusal::OutOfStep);
    }
    let seen = told::returns(lent, t, f, res);
    weigh::returns::allows(seen, f, status == 0)?;
    let kind = seen.kind;
    let new = seen.made;
    let n = capacity_asked(top);
    act::returns::returns(lent, line, kind, new.row, t, f, res, status, pending, n);
    Ok(weigh::returns::findings(seen, line, res))
}
