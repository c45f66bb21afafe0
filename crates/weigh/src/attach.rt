// A: whether it is in turn. It is refused as N with no handles is, else.
ghost use Rattle.std.specs.Prelude.{◌≡◌};
ghost use Rattle.book.specs.Threads.{top_is};
ghost use Rattle.weigh.specs.Attach.{attach_turn};

use book::Top;

// The thread's stack is empty.
pub fn in_turn(closed: bool, top: Top) -> bool
    ensures { result ≡ attach_turn closed (top_is top) }
{
    !closed & top.is_none()
}
