// The writer of lines: what the recorder links.
#![tactic(auto)]

ghost use Rattle.std.specs.Prelude.{◌≡◌, ◌∷◌, suc, ◌+◌, ◌≤◌, length};
ghost use Rattle.words.specs.Text.{tab};
ghost use Rattle.numbers.specs.Decimal.{shown};
ghost use Rattle.numbers.specs.Signed.{signed};
ghost use Rattle.numbers.specs.Writing.{put};
ghost use Rattle.lines.specs.Writing.{tabbed, lettered};
ghost use Rattle.lines.specs.Events.{meant_in, meant, wrote, left};
ghost use Rattle.lines.specs.Sizes.{signed_at, minus_place, line_in};
ghost use Rattle.writer.specs.Laid.{Writes, Answers};

use lines::forms::NO_PLACE;
use lines::refusal::Refusal;
use lines::{Event, LINE_FEED, TAB, forms};
use words::Handle;

mod apart; // apart.rt: an event taken apart into its letter and numbers

// A tab and a number, where there is room; what is past them.
fn put_field(d: &mut [u8], at: usize, minus: bool, size: Handle) -> usize
    requires { at + suc (length (shown (signed minus size))) ≤ length d.old }
    ensures { (result ≡ at + suc (length (shown (signed minus size)))) × (d.new ≡ put d.old at (tab ∷ shown (signed minus size))) }
{
    d[at] = TAB;
    numbers::write_signed(d, at + 1, minus, size).unwrap()
}

// How long a number is.
fn field_width(minus: bool, size: Handle) -> usize
    ensures { (result ≡ length (shown (signed minus size))) × (result ≤ 21) }
{
    numbers::width_signed(minus, size)
}

// How long the numbers are, each after a tab; that at the place `minus` is below zero.
fn fields_width(v: &[Handle], minus: usize) -> usize
    requires { length v.now ≤ 10 }
    ensures { (result ≡ length (tabbed (signed_at 0 minus v.now))) × (result ≤ 220) }
{
    let mut w = 0;
    for (i, x) in v.iter().enumerate() {
        w = w + 1 + field_width(i == minus, *x);
    }
    w
}

// The numbers, each after a tab, where there is room; what is past them.
fn put_fields(d: &mut [u8], from: usize, v: &[Handle], minus: usize) -> usize
    requires { from + length (tabbed (signed_at 0 minus v.now)) ≤ length d.old }
    ensures { (result ≡ from + length (tabbed (signed_at 0 minus v.now))) × (d.new ≡ put d.old from (tabbed (signed_at 0 minus v.now))) }
{
    let mut at = from;
    for (i, x) in v.iter().enumerate() {
        at = put_field(d, at, i == minus, *x);
    }
    at
}

// A whole line of a letter and numbers; where there is no room nothing is written.
fn put_line(d: &mut [u8], letter: u8, v: &[Handle], minus: usize) -> Result<usize, Refusal>
    requires { length v.now ≤ 10 }
    ensures { Writes (lettered letter (signed_at 0 minus v.now)) d.old result d.new }
{
    let w = fields_width(v, minus);
    if d.len() < w + 2 {
        return Err(Refusal::NoRoom);
    }
    d[0] = letter;
    let at = put_fields(d, 1, v, minus);
    d[at] = LINE_FEED;
    Ok(at + 1)
}

// The place of the number that is below zero, no place where none is.
fn minus_place(letter: u8, minus: bool) -> usize
    ensures { result ≡ minus_place letter minus }
{
    if !minus {
        return NO_PLACE;
    }
    let counts = forms::counts_of(letter);
    counts.signed
}

// Writes the line of a letter and numbers, where they are in range.
fn write_numbers(
    d: &mut [u8],
    letter: u8,
    n: usize,
    minus: bool,
    v: [Handle; 10],
) -> Result<usize, Refusal>
    ensures { Answers (line_in letter n minus v) d.old result d.new }
{
    forms::event_of(letter, n, minus, v)?;
    put_line(d, letter, &v[..n], minus_place(letter, minus))
}

fn write_event(d: &mut [u8], e: Event, h: [Handle; 8]) -> Result<usize, Refusal>
    ensures { Answers (meant_in e h) d.old result d.new }
{
    let Some(t) = apart::take_apart(e, h) else {
        return Err(Refusal::Range);
    };
    write_numbers(d, t.letter, t.count, t.minus, t.values)
}

// Writes the line of an event at the start of d: 3 for a bad event or what the reader refused, then 7 where d is short, and nothing is written. Bytes past the line stay.
pub fn write_line(
    d: &mut [u8],
    e: Result<Event, Refusal>,
    handles: &[Handle; 8],
) -> Result<usize, Refusal>
    ensures { (result ≡ wrote (meant e handles.now) d.old) × (d.new ≡ left (meant e handles.now) d.old) }
{
    match e {
        Ok(e) => write_event(d, e, *handles),
        Err(_) => Err(Refusal::Range),
    }
}
