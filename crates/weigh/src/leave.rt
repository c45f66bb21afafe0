// X: what is answered to it.
ghost use Rattle.std.specs.Prelude.{◌≡◌};
ghost use Rattle.book.specs.Threads.{top_is};
ghost use Rattle.lines.specs.Numbered.{passes};
ghost use Rattle.answers.specs.Answer.{findings_of};
ghost use Rattle.answers.specs.Listed.{listed};
ghost use Rattle.weigh.specs.Leave.{leave_refusal, judged_leave};

use answers::{Findings, Judged};
use book::Top;
use lines::refusal::Refusal;
use sight::leave::LeaveSight;
use words::Handle;

// It is not refused.
pub fn allows(closed: bool, top: Top) -> Result<(), Refusal>
    ensures { result ≡ passes (leave_refusal closed (top_is top)) }
{
    crate::steps::in_step(closed, crate::steps::is_native(top))
}

// Line number `line`, accepted.
pub fn findings(seen: LeaveSight, line: u32, res: Handle) -> Findings
    ensures { result ≡ findings_of (listed (judged_leave line res seen)) }
{
    let at = seen.result;
    let rule1 = crate::places::handle_or_null_rule(res, at.there, at.fits);
    let judged = Judged {
        line,
        foreign: false,
        env: 0,
        pending: false,
        critical: seen.critical,
        unheld: false,
        unpushed: false,
        rule1,
        a: res,
        rule2: None,
        b: 0,
        rule3: None,
        c: 0,
    };
    judged.findings()
}
