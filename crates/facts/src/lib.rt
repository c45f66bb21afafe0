// What each JNI function takes and gives, by its number.
#![tactic(auto)]

ghost use Rattle.std.specs.Prelude.{◌≡◌};
ghost use Rattle.facts.specs.Table.{result_in, fact_of, is_allowed_pending, is_allowed_critical, family, is_critical};
ghost use Rattle.facts.specs.Letters.{family_in};

use columns::{NONE, letter};

pub mod classes;
mod columns; // columns.rt: the table of functions
pub mod functions;
pub mod handles;
pub mod identities;
pub mod places;
pub mod results;

const NO_FAMILY: u32 = 12;

const FIRST_CRITICAL: u32 = 10;

const LAST_CRITICAL: u32 = 11;

// What stands at a place of a function.
#[derive(Clone, Copy)]
pub enum Place {
    Handle,
    HandleOrNull,
    LocalOrNull,
    GlobalOrNull,
    WeakOrNull,
    Identity,
    Buffer,
    Unused,
}

// What a function gives back.
#[derive(Clone, Copy)]
pub enum Result {
    Local,
    Global,
    Weak,
    Identity,
    Buffer,
    Status,
    Nothing,
}

// What the letters stand for.
fn as_result(b: u8) -> Result
    ensures { result ≡ result_in b }
{
    match b {
        b'L' => Result::Local,
        b'G' => Result::Global,
        b'W' => Result::Weak,
        b'I' => Result::Identity,
        b'B' => Result::Buffer,
        b'S' => Result::Status,
        _ => Result::Nothing,
    }
}

fn as_family(b: u8) -> u32
    ensures { result ≡ family_in b }
{
    if b < b'A' {
        NO_FAMILY
    } else {
        u32::from(b - b'A')
    }
}

pub fn result_of(f: u32) -> Result
    ensures { result ≡ (fact_of f).result }
{
    as_result(letter(columns::RESULT, f))
}

pub fn allowed_pending(f: u32) -> bool
    ensures { result ≡ is_allowed_pending f }
{
    letter(columns::PENDING, f) != NONE
}

pub fn allowed_critical(f: u32) -> bool
    ensures { result ≡ is_allowed_critical f }
{
    letter(columns::CRITICAL, f) != NONE
}

// 0 to 11, or 12 for a function of no family: a number, since `family` of specs/Table.antt and the rows of the tables have it so.
pub fn family(f: u32) -> u32
    ensures { result ≡ family f }
{
    as_family(letter(columns::FAMILY, f))
}

// The last two families are critical.
pub fn is_critical(k: u32) -> bool
    ensures { result ≡ is_critical k }
{
    (FIRST_CRITICAL..=LAST_CRITICAL).contains(&k)
}
