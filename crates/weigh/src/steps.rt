// The open item that a line wants on top of its thread's.
ghost use Rattle.std.specs.Prelude.{◌≡◌, ◌&&◌, ◌||◌, not};
ghost use Rattle.words.specs.Choice.{if_true◌then◌else◌};
ghost use Rattle.history.specs.Items.{is_empty, is_native, is_attached, native_or_attached, is_call, is_call_of};
ghost use Rattle.book.specs.Threads.{top_is};
ghost use Rattle.lines.specs.Numbered.{passes};

use book::{Item, Top};
use lines::refusal::Refusal;

// The most open items, and frames, of a thread.
pub(crate) const DEEPEST: u32 = book::DEEPEST as u32;

// X wants a native.
pub(crate) fn is_native(top: Top) -> bool
    ensures { result ≡ is_native (top_is top) }
{
    let Some(item) = top else { return false };
    matches!(item, Item::Native)
}

// C wants a native or an attached item.
pub(crate) fn may_call(top: Top) -> bool
    ensures { result ≡ native_or_attached (top_is top) }
{
    let Some(item) = top else { return false };
    !matches!(item, Item::Call(_, _))
}

// R wants an open call of the same function.
pub(crate) fn is_call_of(f: u32, top: Top) -> bool
    ensures { result ≡ is_call_of f (top_is top) }
{
    let Some(item) = top else { return false };
    if let Item::Call(g, _) = item {
        return f == g;
    }
    false
}

// N wants none, or an open call.
pub(crate) fn may_enter(top: Top) -> bool
    ensures { result ≡ (is_empty (top_is top) || is_call (top_is top)) }
{
    let Some(item) = top else { return true };
    matches!(item, Item::Call(_, _))
}

// D wants an attached item.
pub(crate) fn is_attached(top: Top) -> bool
    ensures { result ≡ is_attached (top_is top) }
{
    let Some(item) = top else { return false };
    matches!(item, Item::Attached)
}

// X and D are refused where the item that they want is not on top, and after Z.
pub(crate) fn in_step(closed: bool, wanted: bool) -> Result<(), Refusal>
    ensures { result ≡ passes (if_true not closed && wanted then 0 else 4) }
{
    if closed | !wanted {
        return Err(Refusal::OutOfStep);
    }
    Ok(())
}
