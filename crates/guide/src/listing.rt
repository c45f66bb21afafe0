// Where rows of either sort are listed in a guide: each at one of two places, three rows to a place.
ghost use Rattle.std.specs.Prelude.{◌≡◌, Bool, ◌&&◌, ℕ, ◌<◌, get_or, None, unwrap_or};
ghost use Rattle.words.specs.Choice.{if_true◌then◌else◌};
ghost use Rattle.rows.specs.Scan.{lowest};
ghost use Rattle.rows.specs.Slots.{holding};
ghost use Rattle.rows.specs.Table.{Layout, table, room, found};
ghost use Rattle.rows.specs.Tests.{Computes};
ghost use Rattle.rows.specs.View.{slot, view};
ghost use Rattle.guide.specs.Words.{lane, named};
ghost use Rattle.guide.specs.Listing.{wants, with_row, with_listed, found_by};

use crate::word::{above, is_full, is_named, name_a, name_b, name_c, put_word, word_at, word_of};
use rows::Number;

// A sort of rows that a guide lists.
pub(crate) trait Listed: Copy {
    ghost layout: { Layout Self };

    ghost first: { Self → ℕ };

    ghost second: { Self → ℕ };

    // How many rows there are.
    fn room(rows: &[Number], marks: &[u64]) -> usize
        ensures { result ≡ room layout (table rows.now marks.now) };

    // What stands in row r, where it is used.
    fn slot(rows: &[Number], marks: &[u64], r: usize) -> Option<Self>
        ensures { result ≡ get_or (view layout (table rows.now marks.now)) r None };

    // The two places of a row.
    fn first(self) -> usize
        ensures { result ≡ first self };

    fn second(self) -> usize
        ensures { result ≡ second self };
}

// Row r where it is used and passes the test, else n.
fn row_or<R: Listed, Q: Fn(R) -> bool>(
    rows: &[Number],
    marks: &[u64],
    r: usize,
    n: usize,
    q: &Q,
) -> usize
    requires { Q.IsAlwaysCallable q.now }
    ensures { (p : R → Bool) → Computes (Q.post q.now) p → result ≡ (if_true holding p (get_or (view R.layout (table rows.now marks.now)) r None) then r else n) }
{
    match R::slot(rows, marks, r) {
        Some(x) => { if q(x) { r } else { n } }
        None => n,
    }
}

// The lowest such row that word w names, or the room.
fn named_row<R: Listed, Q: Fn(R) -> bool>(rows: &[Number], marks: &[u64], w: u64, q: &Q) -> usize
    requires { Q.IsAlwaysCallable q.now }
    ensures { (p : R → Bool) → Computes (Q.post q.now) p → result ≡ lowest (λ k. holding p (slot R.layout (table rows.now marks.now) k) && named w k) (room R.layout (table rows.now marks.now)) }
{
    let n = R::room(rows, marks);
    let a = row_or(rows, marks, name_a(w), n, q);
    let b = row_or(rows, marks, name_b(w), n, q);
    let c = row_or(rows, marks, name_c(w), n, q);
    a.min(b).min(c)
}

// The lowest used row that passes the test, of those that are listed at a or b, or the room; None where both places are full, so that each row is to be looked at.
// It names `named_row` once, so that this is compiled into it: a call would copy the slices.
pub(crate) fn find<R: Listed, Q: Fn(R) -> bool>(
    rows: &[Number],
    marks: &[u64],
    guide: &[u64],
    a: usize,
    b: usize,
    q: &Q,
) -> Option<usize>
    requires { Q.IsAlwaysCallable q.now }
    ensures { (p : R → Bool) → Computes (Q.post q.now) p → unwrap_or result (found R.layout p (table rows.now marks.now)) ≡ found_by R.layout guide.now a b p (table rows.now marks.now) }
{
    if guide.is_empty() {
        return None;
    }
    let mut best = R::room(rows, marks);
    for s in [a, b] {
        let w = word_at(guide, s);
        best = best.min(named_row(rows, marks, w, q));
        if !is_full(w) {
            return Some(best);
        }
    }
    None
}

// Row r is used, and s is one of its two places.
fn wants<R: Listed>(rows: &[Number], marks: &[u64], s: usize, r: usize) -> bool
    ensures { result ≡ wants R.layout R.first R.second (table rows.now marks.now) s r }
{
    match R::slot(rows, marks, r) {
        Some(x) => (x.first() == s) | (x.second() == s),
        None => false,
    }
}

// Word w of place s with row r instead of one that does not want it; where all three do, w is full.
fn with_row<R: Listed>(rows: &[Number], marks: &[u64], s: usize, w: u64, r: usize) -> u64
    requires { r < lane }
    ensures { result ≡ with_row R.layout R.first R.second (table rows.now marks.now) s w r }
{
    let a = name_a(w);
    let b = name_b(w);
    let c = name_c(w);
    if !wants::<R>(rows, marks, s, a) {
        return word_of(r, b, c, above(w));
    }
    if !wants::<R>(rows, marks, s, b) {
        return word_of(a, r, c, above(w));
    }
    if !wants::<R>(rows, marks, s, c) {
        return word_of(a, b, r, above(w));
    }
    word_of(a, b, c, 1)
}

// Row r, which is x, listed at its first place, or at its second where the first is full.
pub(crate) fn list<R: Listed>(rows: &[Number], marks: &[u64], guide: &mut [u64], x: R, r: usize)
    requires { r < lane }
    ensures { guide.new ≡ with_listed R.layout R.first R.second (table rows.now marks.now) guide.old (R.first x) (R.second x) r }
{
    let a = x.first();
    let v = with_row::<R>(rows, marks, a, word_at(guide, a), r);
    put_word(guide, a, v);
    if is_named(v, r) {
        return;
    }
    let b = x.second();
    let w = with_row::<R>(rows, marks, b, word_at(guide, b), r);
    put_word(guide, b, w);
}
