// A line's letter and the sizes of its numbers, or why there is none.
ghost use Rattle.std.specs.Prelude.{◌≡◌, List, ℕ};
ghost use Rattle.lines.specs.Reading.{fields, of_fields, read};
ghost use Rattle.lines.specs.Gathered.{fields_from, letter_alone, nothing_yet, gathered_as, taken, gathered, made, said, Headed};

use crate::refusal::Refusal;
use crate::{LINE_FEED, LONGEST, MOST_FIELDS, TAB, forms};
use numbers::Field;
use words::{Handle, LARGEST};

// What was gathered of a line's numbers beside their sizes: how many (one past the most where one is no number or there are more),
// whether one is out of range or below zero where none may be, whether one is below zero. An Option of it, handed round the loop,
// takes the reader for C past the stack that it may take.
#[derive(Clone, Copy)]
struct Tally {
    count: usize,
    out: bool,
    minus: bool,
}

// A letter with how many numbers, and whether the one that may be below zero is. Their sizes stand in ten slots beside it.
#[derive(Clone, Copy)]
pub(crate) struct Head {
    pub(crate) letter: u8,
    pub(crate) count: usize,
    pub(crate) minus: bool,
}

// One field more; only that at the place `signed` may be below zero.
fn take_field(t: Tally, f: Field, signed: usize, values: &mut [Handle; 10]) -> Tally
    ensures { gathered_as result values.new ≡ taken signed (gathered_as t values.old) f }
{
    let at = t.count;
    if MOST_FIELDS <= at {
        return Tally {
            count: MOST_FIELDS + 1,
            out: false,
            minus: false,
        };
    }
    match f {
        Field::Plus(n) => {
            values[at] = n;
            Tally {
                count: at + 1,
                out: t.out,
                minus: t.minus,
            }
        }
        Field::Minus(n) => {
            values[at] = n;
            Tally {
                count: at + 1,
                out: t.out | (at != signed),
                minus: true,
            }
        }
        Field::Out => Tally {
            count: at + 1,
            out: true,
            minus: t.minus,
        },
        Field::Bad => Tally {
            count: MOST_FIELDS + 1,
            out: false,
            minus: false,
        },
    }
}

// The fields of s from a place on, up to one that is no number or one too many: no field after it mends the line.
fn gather(s: &[u8], from: usize, signed: usize, values: &mut [Handle; 10]) -> Tally
    ensures { gathered_as result values.new ≡ gathered signed (gathered_as nothing_yet values.old) (fields_from s.now from) }
{
    let mut t = Tally {
        count: 0,
        out: false,
        minus: false,
    };
    let mut at = from;
    // No chain is plainer: where the next field begins is known once this one is read.
    while at <= s.len() {
        let found = numbers::read(s, at, TAB, LARGEST);
        t = take_field(t, found.field, signed, values);
        if MOST_FIELDS < t.count {
            return t;
        }
        at = found.next + 1;
    }
    t
}

// The first field of s has one byte.
fn letter_alone(s: &[u8]) -> bool
    ensures { result ≡ letter_alone s.now }
{
    if 2 <= s.len() {
        return s[1] == TAB;
    }
    s.len() == 1
}

// What was gathered, with its letter: 3 where a number is out of range, but 2 first where the count is wrong.
fn take_gathered(letter: u8, t: Tally) -> Result<Head, Refusal>
    ensures { (vs : List ℕ) → said result vs ≡ made letter t vs }
{
    let n = t.count;
    if t.out & forms::right_count(letter, n) {
        return Err(Refusal::Range);
    }
    Ok(Head {
        letter,
        count: n,
        minus: t.minus,
    })
}

// A line without its LF.
fn take_content(s: &[u8], values: &mut [Handle; 10]) -> Result<Head, Refusal>
    ensures { Headed (of_fields (fields s.now)) result values.new }
{
    if !letter_alone(s) {
        return Err(Refusal::Form);
    }
    let letter = s[0];
    *values = [0; 10];
    let counts = forms::counts_of(letter);
    let signed = counts.signed;
    take_gathered(letter, gather(s, 2, signed, values))
}

// A lent line, all its bytes with the LF. What the slots hold before does not matter.
pub(crate) fn take_line(s: &[u8], values: &mut [Handle; 10]) -> Result<Head, Refusal>
    ensures { Headed (read s.now) result values.new }
{
    let n = s.len();
    if n == 0 {
        return Err(Refusal::Length);
    }
    if LONGEST + 1 < n {
        return Err(Refusal::Length);
    }
    if s[n - 1] != LINE_FEED {
        return Err(Refusal::Length);
    }
    take_content(&s[..n - 1], values)
}
