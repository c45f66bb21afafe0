// R: what is answered to it.
ghost use Rattle.std.specs.Prelude.{◌≡◌};
ghost use Rattle.book.specs.Threads.{top_is};
ghost use Rattle.lines.specs.Numbered.{passes};
ghost use Rattle.answers.specs.Answer.{findings_of};
ghost use Rattle.weigh.specs.Returns.{return_turn, return_refusal, found_return};

use answers::Findings;
use book::Top;
use facts::functions::PUSH_LOCAL_FRAME;
use lines::refusal::Refusal;
use sight::returns::ReturnSight;
use words::Handle;

// An open call of the same function is on top.
pub fn in_turn(closed: bool, f: u32, top: Top) -> bool
    ensures { result ≡ return_turn closed f (top_is top) }
{
    !closed & crate::steps::is_call_of(f, top)
}

// For R in turn: it is not refused; `acts` where the status is 0.
pub fn allows(seen: ReturnSight, f: u32, acts: bool) -> Result<(), Refusal>
    ensures { result ≡ passes (return_refusal f acts seen) }
{
    let new = seen.made;
    if new.alive {
        return Err(Refusal::AlreadyAlive);
    }
    if new.fits & (!((f == PUSH_LOCAL_FRAME) & acts) | (seen.frames < crate::steps::DEEPEST)) {
        return Ok(());
    }
    Err(Refusal::NoRoom)
}

// Line number `line`, accepted.
pub fn findings(seen: ReturnSight, line: u32, h: Handle) -> Findings
    ensures { result ≡ findings_of (found_return line h seen) }
{
    Findings::none().and_if(seen.over, line, 11, 0, h)
}
