// M: whether it is refused. It has no findings.
ghost use Rattle.std.specs.Prelude.{◌≡◌};
ghost use Rattle.lines.specs.Numbered.{passes};
ghost use Rattle.weigh.specs.Identify.{identify_refusal};

use lines::refusal::Refusal;
use sight::identify::IdentifySight;

pub fn allows(closed: bool, seen: IdentifySight) -> Result<(), Refusal>
    ensures { result ≡ passes (identify_refusal closed seen) }
{
    if closed {
        return Err(Refusal::OutOfStep);
    }
    if !seen.known {
        return Err(Refusal::WrongClass);
    }
    if !seen.fits {
        return Err(Refusal::NoRoom);
    }
    Ok(())
}
