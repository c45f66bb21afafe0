// Z: its findings.
ghost use Rattle.std.specs.Prelude.{◌≡◌};
ghost use Rattle.answers.specs.Answer.{findings_of};
ghost use Rattle.weigh.specs.End.{found_end};

use answers::Findings;
use sight::end::EndSight;
use words::Handle;

// Line number `line`, accepted.
pub fn findings(seen: EndSight, line: u32) -> Findings
    ensures { result ≡ findings_of (found_end line seen) }
{
    let out = seen.buffers;
    let held = seen.monitors;
    let left = seen.handles;
    Findings::none()
        .and_if(0 < out, line, 8, 0, out as Handle)
        .and_if(0 < held, line, 9, 0, held as Handle)
        .and_if(0 < left, line, 10, 0, left as Handle)
}
