// The lent tables, what the judge does to them, as definitions, and their rows kept with their guides.
#![tactic(auto)]

mod bits;
pub mod kept;
pub mod kept_pins;

use rows::Number;

// The lent tables, with the guides of their rows, which are empty where rows are found by scans.
#[derive(Drop)]
pub struct Lent<'a> {
    pub rows: &'a mut [Number],
    pub marks: &'a mut [u64],
    pub guide: &'a mut [u64],
    pub pins: &'a mut [Number],
    pub pinmarks: &'a mut [u64],
    pub pinguide: &'a mut [u64],
    pub book: &'a mut [u64],
    pub classes: &'a mut [Number],
}

// A sort of rows as they are looked at, with their guide, which is empty where rows are found by scans. Who looks at rows that he may not write has these.
#[derive(Clone, Copy)]
pub struct Looked<'a> {
    pub rows: &'a [Number],
    pub marks: &'a [u64],
    pub guide: &'a [u64],
}
