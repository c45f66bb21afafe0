// N: whether it is refused. It has no findings.
ghost use Rattle.std.specs.Prelude.{◌≡◌};
ghost use Rattle.lines.specs.Numbered.{passes};
ghost use Rattle.book.specs.Threads.{top_is};
ghost use Rattle.weigh.specs.Enter.{enter_turn, named_twice, env_fits, enter_room, enter_refusal};

use book::Top;
use lines::refusal::Refusal;
use sight::enter::EnterSight;
use words::Handle;

// The thread's stack is empty or its top is an open call.
pub fn in_turn(closed: bool, top: Top) -> bool
    ensures { result ≡ enter_turn closed (top_is top) }
{
    !closed & crate::steps::may_enter(top)
}

fn env_fits(seen: EnterSight, env: Handle) -> bool
    ensures { result ≡ env_fits env seen }
{
    ((seen.env == 0) | (seen.env == env)) & !seen.elsewhere
}

fn named_twice(hs: &[Handle]) -> bool
    ensures { result ≡ named_twice hs.now }
{
    let mut left = hs;
    // Each handle is looked for in the rest behind it, which no chain hands out.
    while let Some((h, rest)) = left.split_first() {
        if rest.contains(h) {
            return true;
        }
        left = rest;
    }
    false
}

// `n` rows, a frame and an item more, where `many` items are open.
fn has_room(seen: EnterSight, many: u32, n: usize) -> bool
    ensures { result ≡ enter_room many n seen }
{
    (n <= seen.free) & (seen.frames < crate::steps::DEEPEST) & (many < crate::steps::DEEPEST)
}

// For N in turn: it is not refused.
pub fn allows(seen: EnterSight, many: u32, env: Handle, hs: &[Handle]) -> Result<(), Refusal>
    ensures { result ≡ passes (enter_refusal many env hs.now seen) }
{
    if !env_fits(seen, env) {
        return Err(Refusal::WrongEnv);
    }
    if seen.alive | named_twice(hs) {
        return Err(Refusal::AlreadyAlive);
    }
    if !has_room(seen, many, hs.len()) {
        return Err(Refusal::NoRoom);
    }
    Ok(())
}
