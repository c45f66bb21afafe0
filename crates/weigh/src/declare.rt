// K: whether it is refused. It has no findings.
ghost use Rattle.std.specs.Prelude.{◌≡◌};
ghost use Rattle.lines.specs.Numbered.{passes};
ghost use Rattle.weigh.specs.Declare.{declare_refusal};

use lines::refusal::Refusal;
use sight::declare::DeclareSight;

pub fn allows(closed: bool, seen: DeclareSight) -> Result<(), Refusal>
    ensures { result ≡ passes (declare_refusal closed seen) }
{
    if closed {
        return Err(Refusal::OutOfStep);
    }
    if seen.known | !seen.under {
        return Err(Refusal::WrongClass);
    }
    Ok(())
}
