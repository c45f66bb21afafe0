// D: what is answered to it.
ghost use Rattle.std.specs.Prelude.{◌≡◌};
ghost use Rattle.book.specs.Threads.{top_is};
ghost use Rattle.lines.specs.Numbered.{passes};
ghost use Rattle.answers.specs.Answer.{findings_of};
ghost use Rattle.weigh.specs.Detach.{detach_refusal, found_detach};

use answers::Findings;
use book::Top;
use lines::refusal::Refusal;
use sight::detach::DetachSight;
use words::Handle;

// It is not refused.
pub fn allows(closed: bool, top: Top) -> Result<(), Refusal>
    ensures { result ≡ passes (detach_refusal closed (top_is top)) }
{
    crate::steps::in_step(closed, crate::steps::is_attached(top))
}

// Line number `line`, accepted.
pub fn findings(seen: DetachSight, line: u32) -> Findings
    ensures { result ≡ findings_of (found_detach line seen) }
{
    let held = seen.monitors;
    Findings::none()
        .and_if(seen.critical, line, 3, 0, 0)
        .and_if(0 < held, line, 9, 0, held as Handle)
}
