// The rule that a value breaks at a place, the first that fits, if any. `there` tells whether what it names is alive or outstanding, or stated as
// it is wanted, `fits` whether its stated class is right there, or it is no final field that is written.
ghost use Rattle.std.specs.Prelude.{◌≡◌, Bool};
ghost use Rattle.facts.specs.declared.Place.TheVariants as Place;
ghost use Rattle.history.specs.Breaches.{handle_rule, kind_rule, place_rule};

use facts::Place;
use facts::handles::{GLOBAL, IDENTITY, KINDS, LOCAL, WEAK};
use words::Handle;

// A handle that is not null.
fn handle_rule(h: Handle, there: bool, fits: bool) -> Option<u32>
    ensures { result ≡ handle_rule h there fits }
{
    let kind = h % KINDS;
    if kind == IDENTITY {
        return Some(4);
    }
    if there {
        return if fits { None } else { Some(4) };
    }
    if kind == LOCAL {
        return Some(11);
    }
    Some(10)
}

// A handle of one kind, or null.
fn kind_rule(kind: Handle, h: Handle, there: bool, fits: bool) -> Option<u32>
    ensures { result ≡ kind_rule kind h there fits }
{
    if h == 0 {
        return None;
    }
    if h % KINDS == kind {
        handle_rule(h, there, fits)
    } else {
        Some(4)
    }
}

// A handle or null.
pub(crate) fn handle_or_null_rule(h: Handle, there: bool, fits: bool) -> Option<u32>
    ensures { result ≡ place_rule Place.HandleOrNull h there fits }
{
    if h == 0 {
        return None;
    }
    handle_rule(h, there, fits)
}

fn must_handle_rule(h: Handle, there: bool, fits: bool) -> Option<u32>
    ensures { result ≡ place_rule Place.Handle h there fits }
{
    if h == 0 {
        return Some(7);
    }
    handle_rule(h, there, fits)
}

fn identity_rule(h: Handle, there: bool, fits: bool) -> Option<u32>
    ensures { result ≡ place_rule Place.Identity h there fits }
{
    if h == 0 {
        return Some(7);
    }
    if h % KINDS != IDENTITY {
        return Some(4);
    }
    if !there {
        return Some(5);
    }
    if fits { None } else { Some(6) }
}

fn buffer_rule(b: Handle, there: bool) -> Option<u32>
    ensures { (fits : Bool) → result ≡ place_rule Place.Buffer b there fits }
{
    if b == 0 {
        return Some(7);
    }
    if there { None } else { Some(8) }
}

// A value at a place.
pub(crate) fn place_rule(place: Place, h: Handle, there: bool, fits: bool) -> Option<u32>
    ensures { result ≡ place_rule place h there fits }
{
    match place {
        Place::Handle => must_handle_rule(h, there, fits),
        Place::HandleOrNull => handle_or_null_rule(h, there, fits),
        Place::LocalOrNull => kind_rule(LOCAL, h, there, fits),
        Place::GlobalOrNull => kind_rule(GLOBAL, h, there, fits),
        Place::WeakOrNull => kind_rule(WEAK, h, there, fits),
        Place::Identity => identity_rule(h, there, fits),
        Place::Buffer => buffer_rule(h, there),
        Place::Unused => None,
    }
}
