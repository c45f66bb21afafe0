// A line of each event: weighed, and where it is accepted, what it does. `heard` tells it its thread's open items, which it leaves as they are, and moves them when it was accepted.
#![tactic(auto)]

pub mod attach;
pub mod call;
pub mod declare;
pub mod detach;
pub mod end;
pub mod enter;
pub mod heard;
pub mod identify;
pub mod items;
pub mod leave;
pub mod returns;
pub mod state;
mod told;

ghost use Rattle.std.specs.Prelude.{◌≡◌};
ghost use Rattle.book.specs.Threads.{closed_in};

use tables::Lent;

// Read through `&Lent`: after a read of a field through `&mut Lent` a proof knows no more what it holds.
fn is_closed(lent: &Lent) -> bool
    ensures { result ≡ closed_in lent.now.book.now }
{
    book::is_closed(lent.book)
}
