// The arguments: what the program is asked for.
ghost use Rattle.std.specs.Prelude.{◌≡◌, true, false};

use std::env::{Env, FillError};

#[derive(Drop)]
pub(crate) enum Asked {
    Report,
    ReportAndLeaks,
    Another,
}

// Whether two byte strings are the same. A function of its own, since nothing is promised of `asked_for`: what is compared is promised here.
fn same(a: &[u8], b: &[u8]) -> bool
    ensures { (result ≡ true → a.now ≡ b.now) × (result ≡ false → a.now ≡ b.now → ⊥) }
{
    a == b
}

// The first argument counts behind the program's own name; one that is longer than the buffer is another.
pub(crate) fn asked_for(rt: HostRuntime) -> Asked {
    let mut word = [0; 4096];
    match rt.arg(1, &mut word) {
        Err(FillError::NotPresent) => Asked::Report,
        Err(FillError::TooLong) => Asked::Another,
        Ok(n) => {
            let is_last = matches!(rt.arg(2, &mut []), Err(FillError::NotPresent));
            if is_last && same(&word[..n], b"--leaks") {
                return Asked::ReportAndLeaks;
            }
            Asked::Another
        }
    }
}
