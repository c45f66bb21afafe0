// O: whether it is refused. It has no findings.
ghost use Rattle.std.specs.Prelude.{◌≡◌};
ghost use Rattle.lines.specs.Numbered.{passes};
ghost use Rattle.weigh.specs.State.{state_refusal};

use lines::refusal::Refusal;
use sight::state::StateSight;

pub fn allows(closed: bool, seen: StateSight) -> Result<(), Refusal>
    ensures { result ≡ passes (state_refusal closed seen) }
{
    if closed {
        return Err(Refusal::OutOfStep);
    }
    if !seen.known {
        return Err(Refusal::WrongClass);
    }
    if !seen.alive {
        return Err(Refusal::NotAlive);
    }
    Ok(())
}
