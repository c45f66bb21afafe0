// Unread input, cut into the lines that are handed to the step one after another.
#![tactic(auto)]

ghost use Rattle.std.specs.Prelude.{◌≡◌};
ghost use Rattle.words.specs.Lists.{place_of};
ghost use Rattle.pieces.specs.Pieces.{ends_line, before_lf, next_of};
ghost use Rattle.pieces.specs.Shifted.{shifted};

use lines::{LINE_FEED, LONGEST};

// The place of the first LF, or the length.
fn first_lf(s: &[u8]) -> usize
    ensures { result ≡ place_of ends_line s.now }
{
    s.iter().position(|b| *b == LINE_FEED).unwrap_or(s.len())
}

// How many bytes stand before the first LF. No more than LONGEST are looked at.
fn before_lf(s: &[u8]) -> usize
    ensures { result ≡ before_lf s.now }
{
    first_lf(&s[..s.len().min(LONGEST)])
}

// What comes next: a line of so many bytes, more must be read, or the end.
#[derive(Clone, Copy)]
pub enum Next {
    Line(usize),
    More,
    End,
}

// What comes next of the unread bytes, behind which the input may have ended: a line with its LF, or 225 bytes that no LF ends.
// At the end the rest is a line too, without its LF.
pub fn next_line(s: &[u8], ended: bool) -> Next
    ensures { result ≡ next_of ended s.now }
{
    let k = before_lf(s);
    if k < s.len() {
        return Next::Line(k + 1);
    }
    if !ended {
        return Next::More;
    }
    if k == 0 { Next::End } else { Next::Line(k) }
}

// The unread bytes d[from..to] moved to the front.
pub fn shift(d: &mut [u8], from: usize, to: usize)
    ensures { d.new ≡ shifted d.old from to }
{
    if to <= d.len() && from <= to {
        d.copy_within(from..to, 0);
    }
}
