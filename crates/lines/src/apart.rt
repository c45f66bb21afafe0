// A line's letter and numbers, as they are told to C.
ghost use Rattle.std.specs.Prelude.{◌≡◌, true};
ghost use Rattle.numbers.specs.Signed.{signed};
ghost use Rattle.lines.specs.Reading.{read};
ghost use Rattle.lines.specs.Apart.{as_told, apart_of, numbers_left};
ghost use Rattle.lines.specs.Sizes.{sizes_told};

use crate::refusal::Refusal;
use crate::{MOST_FIELDS, forms, heads};
use words::Handle;

// A line's letter and how many numbers it has. The numbers stand in ten slots beside it.
#[derive(Clone, Copy)]
pub struct Apart {
    pub letter: u8,
    pub count: usize,
}

// A size below zero as its two's complement.
fn below_zero(size: Handle) -> Handle
    ensures { result ≡ as_told (signed true size) }
{
    size.wrapping_neg()
}

// Sizes become the numbers that they are, as they are told. In place: a second array of ten would stand on the stack of C's reader.
fn tell_sizes(letter: u8, minus: bool, v: &mut [Handle; 10])
    ensures { v.new ≡ sizes_told letter minus v.old }
{
    let at = forms::counts_of(letter).signed;
    if minus && at < MOST_FIELDS {
        v[at] = below_zero(v[at]);
    }
}

// Reads a lent line, all its bytes with the LF: its letter and how many numbers it has, or why there is none. The numbers are left in the slots, 0 past them;
// where there is no line the slots stay.
pub fn read_apart(s: &[u8], numbers: &mut [Handle; 10]) -> Result<Apart, Refusal>
    ensures { (result ≡ apart_of (read s.now)) × (numbers.new ≡ numbers_left (read s.now) numbers.old) }
{
    let mut values = [0; 10];
    let head = heads::take_line(s, &mut values)?;
    forms::event_of(head.letter, head.count, head.minus, values)?;
    *numbers = values;
    tell_sizes(head.letter, head.minus, numbers);
    Ok(Apart {
        letter: head.letter,
        count: head.count,
    })
}
