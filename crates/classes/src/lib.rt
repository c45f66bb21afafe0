// The lent class table: a number for each class, its super, or 0 where it is not declared; class c stands at index c - 1. The identities stand behind.
#![tactic(auto)]

pub mod identities;

ghost use Rattle.std.specs.Prelude.{◌≡◌};
ghost use Rattle.history.specs.Classes.{is_known, super, leads, most_looks, class_fits};
ghost use Rattle.classes.specs.Supers.{is_short, super_in, with_super, classes_cleared};

use facts::classes::{NO_CLASS, OBJECT, THROWABLE, is_reserved};
use lines::ranges::CLASSES;
use rows::Number;

// The classes that have a name, as wide as the table's numbers. NONE is no Option: so C lends the table, and `Supers.super_in` may not change.
const NONE: Number = NO_CLASS as Number;

const ROOT: Number = OBJECT as Number;

const LAST_RESERVED: Number = THROWABLE as Number;

const LAST: Number = CLASSES as Number;

// No chain of classes is longer.
const MOST_LOOKS: u32 = 4096;

// It has no number for each class.
pub fn is_short(table: &[Number]) -> bool
    ensures { result ≡ is_short table.now }
{
    table.len() < CLASSES as usize
}

// The super declared of class c; a number that is no class has none.
fn super_of(table: &[Number], c: Number) -> Number
    ensures { result ≡ super_in table.now c }
{
    if (1 <= c) & (c <= LAST) {
        return table.get(c as usize - 1).copied().unwrap_or(NONE);
    }
    NONE
}

// A class declared or reserved.
pub fn is_known(table: &[Number], c: u32) -> bool
    ensures { result ≡ is_known (super_in table.now) c }
{
    is_reserved(c) | (super_of(table, c as Number) != NONE)
}

// The class right above class c: of the reserved ones 2 to 4 are under 1, the root.
fn above(table: &[Number], c: Number) -> Number
    ensures { result ≡ super (super_in table.now) c }
{
    if (ROOT <= c) & (c <= LAST_RESERVED) {
        return if c == ROOT { NONE } else { ROOT };
    }
    super_of(table, c)
}

// From class c a chain of supers leads to class k, or it is class k.
fn leads(table: &[Number], c: Number, k: Number) -> bool
    ensures { result ≡ leads (super_in table.now) most_looks c k }
{
    let mut at = c;
    for _ in 0..MOST_LOOKS {
        if at == k {
            return true;
        }
        if at == NONE {
            return false;
        }
        at = above(table, at);
    }
    false
}

// The stated class, a row's number, is the fixed one or below it; where none is fixed, or none stated, there is nothing to judge.
pub fn fits(table: &[Number], fixed: u32, stated: Number) -> bool
    ensures { result ≡ class_fits (super_in table.now) fixed stated }
{
    if (fixed == NO_CLASS) | (stated == NONE) {
        return true;
    }
    leads(table, stated, fixed as Number)
}

// Class c has this super; nothing where the table has no number for it.
pub fn declare(table: &mut [Number], c: u32, superclass: u32)
    ensures { table.new ≡ with_super table.old c superclass }
{
    if (1 <= c) & (c <= CLASSES) & (c as usize <= table.len()) {
        table[c as usize - 1] = superclass as Number;
    }
}

// A start: all numbers are 0.
pub fn clear(table: &mut [Number])
    ensures { table.new ≡ classes_cleared table.old }
{
    table.fill(0);
}
