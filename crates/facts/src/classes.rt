// The reserved classes, and the class fixed for a function's result.
ghost use Rattle.std.specs.Prelude.{◌≡◌};
ghost use Rattle.facts.specs.Classes.{is_reserved, class_made};

use super::functions::GET_OBJECT_CLASS;

// No class is fixed, or none is stated.
pub const NO_CLASS: u32 = 0;

pub const OBJECT: u32 = 1;

pub const CLASS: u32 = 2;

pub const STRING: u32 = 3;

pub const THROWABLE: u32 = 4;

pub fn is_reserved(c: u32) -> bool
    ensures { result ≡ is_reserved c }
{
    (OBJECT..=THROWABLE).contains(&c)
}

// The class fixed for the result of function f.
pub fn class_made(f: u32) -> u32
    ensures { result ≡ class_made f }
{
    if f == GET_OBJECT_CLASS {
        CLASS
    } else {
        NO_CLASS
    }
}
