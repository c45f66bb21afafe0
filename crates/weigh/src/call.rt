// C: what is answered to it.
ghost use Rattle.std.specs.Prelude.{◌≡◌, ◌&&◌, not, eqb};
ghost use Rattle.facts.specs.Table.{is_allowed_pending, is_allowed_critical};
ghost use Rattle.book.specs.Threads.{top_is};
ghost use Rattle.lines.specs.Numbered.{passes};
ghost use Rattle.answers.specs.Answer.{findings_of};
ghost use Rattle.answers.specs.Listed.{listed};
ghost use Rattle.weigh.specs.Call.{call_refusal, judged_call};

use answers::{Findings, Judged};
use book::Top;
use facts::functions::{MONITOR_EXIT, POP_LOCAL_FRAME};
use lines::refusal::Refusal;
use sight::call::CallSight;
use words::Handle;

// It is not refused. `top` is on top of the thread's `many` open items.
pub fn allows(closed: bool, top: Top, many: u32) -> Result<(), Refusal>
    ensures { result ≡ passes (call_refusal closed (top_is top) many) }
{
    if closed | !crate::steps::may_call(top) {
        return Err(Refusal::OutOfStep);
    }
    if crate::steps::DEEPEST <= many {
        return Err(Refusal::NoRoom);
    }
    Ok(())
}

// An exception is pending, and f may not be called with one. Its mark is looked at only where one is.
fn against_pending(pending: u64, f: u32) -> bool
    ensures { result ≡ (eqb pending 1 && not (is_allowed_pending f)) }
{
    pending == 1 && !facts::allowed_pending(f)
}

// And so for a critical region.
fn against_critical(critical: bool, f: u32) -> bool
    ensures { result ≡ (critical && not (is_allowed_critical f)) }
{
    critical && !facts::allowed_critical(f)
}

fn judge(seen: CallSight, line: u32, env: Handle, f: u32, a: Handle, b: Handle, c: Handle) -> Judged
    ensures { result ≡ judged_call line env f a b c seen }
{
    let x = seen.a;
    let y = seen.b;
    let z = seen.c;
    let pa = seen.pa;
    let pb = seen.pb;
    let pc = seen.pc;
    let rule1 = crate::places::place_rule(pa, a, x.there, x.fits);
    let rule2 = crate::places::place_rule(pb, b, y.there, y.fits);
    let rule3 = crate::places::place_rule(pc, c, z.there, z.fits);
    let pending = against_pending(seen.pending, f);
    let critical = against_critical(seen.critical, f);
    Judged {
        line,
        foreign: env != seen.env,
        env,
        pending,
        critical,
        unheld: (f == MONITOR_EXIT) & (seen.monitors == 0),
        unpushed: (f == POP_LOCAL_FRAME) & !seen.pushed,
        rule1,
        a,
        rule2,
        b,
        rule3,
        c,
    }
}

// Line number `line`, accepted.
pub fn findings(
    seen: CallSight,
    line: u32,
    env: Handle,
    f: u32,
    a: Handle,
    b: Handle,
    c: Handle,
) -> Findings
    ensures { result ≡ findings_of (listed (judged_call line env f a b c seen)) }
{
    judge(seen, line, env, f, a, b, c).findings()
}
