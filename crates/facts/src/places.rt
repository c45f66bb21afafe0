// What stands at the three places of a function, and the classes fixed for them, in one look.
ghost use Rattle.std.specs.Prelude.{◌≡◌};
ghost use Rattle.facts.specs.Places.{places_of};
ghost use Rattle.facts.specs.Letters.{places_in};

use super::Place::{
    Buffer, GlobalOrNull, Handle, HandleOrNull, Identity, LocalOrNull, Unused, WeakOrNull,
};
use super::classes::{CLASS, NO_CLASS, STRING, THROWABLE};
use super::columns::letter;
use super::{Place, columns};

// `first` is the class fixed for place a, `second` that for place b; for place c none is.
#[derive(Clone, Copy)]
pub struct Places {
    pub a: Place,
    pub b: Place,
    pub c: Place,
    pub first: u32,
    pub second: u32,
}

// What stands at a, b and c, and the classes fixed for a and b.
fn at(a: Place, b: Place, c: Place, first: u32, second: u32) -> Places
    ensures { result ≡ record { a = a; b = b; c = c; first = first; second = second } }
{
    Places {
        a,
        b,
        c,
        first,
        second,
    }
}

// What the letters stand for.
fn as_places(b: u8) -> Places
    ensures { result ≡ places_in b }
{
    match b {
        b'A' => at(HandleOrNull, Unused, Unused, NO_CLASS, NO_CLASS),
        b'B' => at(GlobalOrNull, Unused, Unused, NO_CLASS, NO_CLASS),
        b'C' => at(LocalOrNull, Unused, Unused, NO_CLASS, NO_CLASS),
        b'D' => at(WeakOrNull, Unused, Unused, NO_CLASS, NO_CLASS),
        b'E' => at(Handle, Unused, Unused, NO_CLASS, NO_CLASS),
        b'F' => at(Handle, Unused, Unused, CLASS, NO_CLASS),
        b'G' => at(Handle, Unused, Unused, STRING, NO_CLASS),
        b'H' => at(Handle, Unused, Unused, THROWABLE, NO_CLASS),
        b'I' => at(Handle, Handle, Unused, CLASS, CLASS),
        b'J' => at(HandleOrNull, HandleOrNull, Unused, NO_CLASS, NO_CLASS),
        b'K' => at(HandleOrNull, Handle, Unused, NO_CLASS, CLASS),
        b'L' => at(Handle, Identity, Unused, NO_CLASS, NO_CLASS),
        b'M' => at(Handle, Identity, Unused, CLASS, NO_CLASS),
        b'N' => at(Handle, Handle, Identity, NO_CLASS, CLASS),
        b'O' => at(Handle, Identity, HandleOrNull, NO_CLASS, NO_CLASS),
        b'P' => at(Handle, Identity, HandleOrNull, CLASS, NO_CLASS),
        b'Q' => at(Handle, HandleOrNull, Unused, NO_CLASS, NO_CLASS),
        b'R' => at(Handle, HandleOrNull, Unused, CLASS, NO_CLASS),
        b'S' => at(Handle, Buffer, Unused, NO_CLASS, NO_CLASS),
        b'T' => at(Handle, Buffer, Unused, STRING, NO_CLASS),
        _ => at(Unused, Unused, Unused, NO_CLASS, NO_CLASS),
    }
}

pub fn places_of(f: u32) -> Places
    ensures { result ≡ places_of f }
{
    as_places(letter(columns::PLACES, f))
}
