// How deep a thread is, read through `&Lent`: after a read of a field through `&mut Lent` a proof knows no more what it holds.
ghost use Rattle.std.specs.Prelude.{◌≡◌, ◌≤◌, length};
ghost use Rattle.history.specs.Acceptance.{deepest};
ghost use Rattle.book.specs.Threads.{thread_in};

use tables::Lent;

pub(crate) fn frames_of(lent: &Lent, t: u32) -> u32
    ensures { (result ≡ length (thread_in lent.now.book.now t).frames) × (result ≤ deepest) }
{
    book::frames_of(lent.book, t)
}
