// Reference rows with their guide: a row that is stored or ended is so in both.
ghost use Rattle.std.specs.Prelude.{◌≡◌, false, ℕ, ◌+◌, ◌*◌, ◌%◌, ◌≤◌, ◌<◌, length, get_or};
ghost use Rattle.std.specs.Int.Bits.{bit_and};
ghost use Rattle.rows.specs.Marks.{word, bit};
ghost use Rattle.rows.specs.Table.{table, most, room, free_row, stored, taken, changed, ended, ended_if, ended_from, ended_all};
ghost use Rattle.rows.specs.References.{references, with_class, from_frame};
ghost use Rattle.guide.specs.Masks.{word_bit, mark_bit};
ghost use Rattle.guide.specs.References.{forgotten, Guides, Leads};
ghost use Rattle.tables.specs.Lent.{tables_of, Same, Led, NextRow, with_references};
ghost use Rattle.tables.specs.Unshown.{Unshown};

use crate::Lent;
use crate::bits::next_bit;
use rows::references::Reference;
use rows::{Number, WORD};

fn store_row(rows: &mut [Number], marks: &mut [u64], guide: &mut [u64], r: usize, row: Reference)
    ensures left { table rows.new marks.new ≡ stored references (table rows.old marks.old) r row }
    ensures led { Leads (table rows.old marks.old) guide.old → (0 < length guide.old → r ≡ free_row references (table rows.old marks.old)) → Leads (table rows.new marks.new) guide.new }
{
    rows::references::store(rows, marks, r, row);
    guide::references::note(rows, marks, guide, r);
    guide::references::raise(guide, r);
}

// Row r, the lowest free one where there is a guide, holds this.
pub fn store(lent: &mut Lent, r: usize, row: Reference)
    ensures left { tables_of lent.new ≡ with_references (tables_of lent.old) (stored references (tables_of lent.old).references r row) }
    ensures same { Same lent.new lent.old }
    ensures led { Led lent.old → NextRow lent.old r → Led lent.new }
{
    store_row(lent.rows, lent.marks, lent.guide, r, row);
}

fn take_row(rows: &mut [Number], marks: &mut [u64], guide: &mut [u64], row: Reference)
    ensures left { Leads (table rows.old marks.old) guide.old → table rows.new marks.new ≡ taken references (table rows.old marks.old) row }
    ensures led { Leads (table rows.old marks.old) guide.old → Leads (table rows.new marks.new) guide.new }
{
    if !guide.is_empty() {
        let r = guide::references::lowest_free(rows, marks, guide);
        store_row(rows, marks, guide, r, row);
    } else {
        rows::references::take(rows, marks, row);
    }
}

// Takes the lowest free row.
pub fn take(lent: &mut Lent, row: Reference)
    ensures left { Led lent.old → tables_of lent.new ≡ with_references (tables_of lent.old) (taken references (tables_of lent.old).references row) }
    ensures same { Same lent.new lent.old }
    ensures led { Led lent.old → Led lent.new }
{
    take_row(lent.rows, lent.marks, lent.guide, row);
}

// `&mut` marks, though they stay: (c) with `&[u64]` the borrow checker has no rule for two fields of a `&mut Lent` in one call.
fn state_row(rows: &mut [Number], marks: &mut [u64], r: usize, class: Number)
    ensures { table rows.new marks.new ≡ changed references (table rows.old marks.old) r (with_class class) }
{
    rows::references::state(rows, marks, r, class);
}

// States the class of row r.
pub fn state(lent: &mut Lent, r: usize, class: Number)
    ensures left { tables_of lent.new ≡ with_references (tables_of lent.old) (changed references (tables_of lent.old).references r (with_class class)) }
    ensures same { Same lent.new lent.old }
    ensures led { Led lent.old → Led lent.new }
{
    state_row(lent.rows, lent.marks, r, class);
}

// Row r ended, and no longer counted.
fn end_row(rows: &mut [Number], marks: &mut [u64], guide: &mut [u64], r: usize)
    ensures left { table rows.new marks.new ≡ ended references (table rows.old marks.old) r }
    ensures guide { guide.new ≡ forgotten (table rows.old marks.old) guide.old r }
{
    guide::references::forget(rows, marks, guide, r);
    rows::references::end(rows, marks, r);
}

// Ends row r.
pub fn end(lent: &mut Lent, r: usize)
    ensures left { tables_of lent.new ≡ with_references (tables_of lent.old) (ended references (tables_of lent.old).references r) }
    ensures same { Same lent.new lent.old }
    ensures led { Led lent.old → Led lent.new }
{
    end_row(lent.rows, lent.marks, lent.guide, r);
}

// Ends row r, if it is used and of thread t and frame f or above.
fn end_if(rows: &mut [Number], marks: &mut [u64], guide: &mut [u64], r: usize, t: Number, f: Number)
    requires { r < room references (table rows.old marks.old) }
    ensures left { table rows.new marks.new ≡ ended_if references (from_frame t f) (table rows.old marks.old) r }
    ensures guided { Guides (table rows.old marks.old) guide.old → Guides (table rows.new marks.new) guide.new }
{
    if let Some(x) = rows::references::slot(rows, marks, r) {
        if (f <= x.frame) & (x.thread == t) {
            end_row(rows, marks, guide, r);
        }
    }
}

// The lowest set mark of word w from i on, below m, that is also set in `own`, or m.
fn next_own(marks: &[u64], own: u64, w: usize, i: usize, m: usize) -> usize
    requires { (w * word + m ≤ length marks.now * word) × (i ≤ m) × (m ≤ word) }
    ensures { (i ≤ result) × (result ≤ m) × ((k : ℕ) → i ≤ k → k < result → bit (bit_and (get_or marks.now w 0) own) k ≡ false) }
{
    if m <= i {
        return m;
    }
    next_bit(marks[w] & own, i).min(m)
}

// Ends such rows among the first m of word w; those are looked at whose marks are set, also in `own`.
fn end_first(
    rows: &mut [Number],
    marks: &mut [u64],
    guide: &mut [u64],
    own: u64,
    w: usize,
    m: usize,
    t: Number,
    f: Number,
)
    requires { (w * word + m ≤ room references (table rows.old marks.old)) × (m ≤ word) }
    ensures left { Unshown mark_bit own t f (table rows.old marks.old) → table rows.new marks.new ≡ ended_from references (from_frame t f) (table rows.old marks.old) (w * word) m }
    ensures guided { Guides (table rows.old marks.old) guide.old → Guides (table rows.new marks.new) guide.new }
{
    let mut i = next_own(marks, own, w, 0, m);
    // No range counts the set marks.
    while i < m {
        end_if(rows, marks, guide, w * WORD + i, t, f);
        i = next_own(marks, own, w, i + 1, m);
    }
}

// The same, where the word is not shown without a look at them.
fn end_shown(
    rows: &mut [Number],
    marks: &mut [u64],
    guide: &mut [u64],
    shown: u64,
    own: u64,
    w: usize,
    m: usize,
    t: Number,
    f: Number,
)
    requires { (w * word + m ≤ room references (table rows.old marks.old)) × (m ≤ word) }
    ensures left { Unshown mark_bit own t f (table rows.old marks.old) → Unshown word_bit shown t f (table rows.old marks.old) → table rows.new marks.new ≡ ended_from references (from_frame t f) (table rows.old marks.old) (w * word) m }
    ensures guided { Guides (table rows.old marks.old) guide.old → Guides (table rows.new marks.new) guide.new }
{
    if (shown >> (w % WORD)) % 2 == 1 {
        end_first(rows, marks, guide, own, w, m, t, f);
    }
}

// The words from w up to this one, at most `full`, are not shown. A bit stands for every 64th word, so where none is set from that of w on it is the next one that the lowest bit stands for.
fn next_shown(shown: u64, w: usize, full: usize) -> usize
    requires { (w ≤ full) × (full ≤ most) }
    ensures { (w ≤ result) × (result ≤ full) × ((k : ℕ) → w ≤ k → k < result → bit shown (k % word) ≡ false) }
{
    (w / WORD * WORD + next_bit(shown, w % WORD)).min(full)
}

// Ends the used rows of thread t and frame f or above, in the words that the guide shows.
fn end_guided(rows: &mut [Number], marks: &mut [u64], guide: &mut [u64], t: Number, f: Number)
    ensures left { Guides (table rows.old marks.old) guide.old → table rows.new marks.new ≡ ended_all references (from_frame t f) (table rows.old marks.old) }
    ensures guided { Guides (table rows.old marks.old) guide.old → Guides (table rows.new marks.new) guide.new }
{
    let n = rows::references::room(rows, marks);
    let shown = guide::references::words_from(guide, t, f);
    let own = guide::references::marks_from(guide, t, f);
    let full = n / WORD;
    let mut w = next_shown(shown, 0, full);
    // No range counts the words that are shown.
    while w < full {
        end_shown(rows, marks, guide, shown, own, w, WORD, t, f);
        w = next_shown(shown, w + 1, full);
    }
    end_shown(rows, marks, guide, shown, own, full, n % WORD, t, f);
    if t <= 16 {
        guide::references::clear_from(guide, t, f);
    }
}

fn end_led(rows: &mut [Number], marks: &mut [u64], guide: &mut [u64], t: Number, f: Number)
    ensures left { Leads (table rows.old marks.old) guide.old → table rows.new marks.new ≡ ended_all references (from_frame t f) (table rows.old marks.old) }
    ensures led { Leads (table rows.old marks.old) guide.old → Leads (table rows.new marks.new) guide.new }
{
    if guide.is_empty() {
        rows::references::end_frames(rows, marks, t, f);
    } else {
        end_guided(rows, marks, guide, t, f);
    }
}

// Ends the used rows of thread t and frame f or above.
pub fn end_frames(lent: &mut Lent, t: Number, f: Number)
    ensures left { Led lent.old → tables_of lent.new ≡ with_references (tables_of lent.old) (ended_all references (from_frame t f) (tables_of lent.old).references) }
    ensures same { Same lent.new lent.old }
    ensures led { Led lent.old → Led lent.new }
{
    end_led(lent.rows, lent.marks, lent.guide, t, f);
}
