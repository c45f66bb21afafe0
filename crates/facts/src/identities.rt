// What is wanted of an identity, by the function that it is handed to, and whether that function writes a field.
ghost use Rattle.std.specs.Prelude.{◌≡◌};
ghost use Rattle.facts.specs.Identities.{wanted_of, suits, writes_field};
ghost use Rattle.facts.specs.Letters.{wanted_in};

use super::columns;
use super::columns::letter;

// An identity's sort.
pub const METHOD: u64 = 1;

pub const FIELD: u64 = 2;

// What is said of a static one, and of a final one.
pub const YES: u64 = 1;

pub const NO: u64 = 0;

// A method or field of an object is one that is not static.
#[derive(Clone, Copy)]
pub enum Wanted {
    ObjectMethod,
    StaticMethod,
    ObjectField,
    StaticField,
    AnyMethod,
    AnyField,
    Nothing,
}

// What the letters stand for.
fn as_wanted(b: u8) -> Wanted
    ensures { result ≡ wanted_in b }
{
    match b {
        b'm' => Wanted::ObjectMethod,
        b'M' => Wanted::StaticMethod,
        b'f' | b'w' => Wanted::ObjectField,
        b'F' | b'W' => Wanted::StaticField,
        b'a' => Wanted::AnyMethod,
        b'b' => Wanted::AnyField,
        _ => Wanted::Nothing,
    }
}

pub fn wanted_of(f: u32) -> Wanted
    ensures { result ≡ wanted_of f }
{
    as_wanted(letter(columns::IDENTITY, f))
}

// An identity of this sort, static or not, is what is wanted.
pub fn suits(wanted: Wanted, sort: u64, isstatic: u64) -> bool
    ensures { result ≡ suits wanted sort isstatic }
{
    match wanted {
        Wanted::ObjectMethod => (sort == METHOD) & (isstatic == NO),
        Wanted::StaticMethod => (sort == METHOD) & (isstatic == YES),
        Wanted::ObjectField => (sort == FIELD) & (isstatic == NO),
        Wanted::StaticField => (sort == FIELD) & (isstatic == YES),
        Wanted::AnyMethod => sort == METHOD,
        Wanted::AnyField => sort == FIELD,
        Wanted::Nothing => false,
    }
}

// Function f writes a field.
pub fn writes_field(f: u32) -> bool
    ensures { result ≡ writes_field f }
{
    let l = letter(columns::IDENTITY, f);
    (l == b'w') | (l == b'W')
}
