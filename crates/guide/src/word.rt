// A word of a guide: three rows that it names, and whether it is full, so that a row may stand where it names none.
ghost use Rattle.std.specs.Prelude.{◌≡◌, ◌<◌, get_or, set};
ghost use Rattle.guide.specs.Listing.{word_at};
ghost use Rattle.guide.specs.Tallies.{more_at, less_at};
ghost use Rattle.guide.specs.Words.{lane, name_a, name_b, name_c, above, is_full, word_of, named};

// The names are numbers below this.
const LANE: u64 = 65536;

// The most rows of a room.
const MOST: u64 = rows::MOST as u64;

const LANES: u64 = LANE * LANE;

const FULL: u64 = LANES * LANE;

// The word at place s; past the end every word is full.
pub(crate) fn word_at(guide: &[u64], s: usize) -> u64
    ensures { result ≡ word_at guide.now s }
{
    guide.get(s).copied().unwrap_or(FULL)
}

// Past the end nothing is written. By a bound: behind `get_mut` a proof knows the length alone.
pub(crate) fn put_word(guide: &mut [u64], s: usize, w: u64)
    ensures { guide.new ≡ set guide.old s w }
{
    if s < guide.len() {
        guide[s] = w;
    }
}

pub(crate) fn name_a(w: u64) -> usize
    ensures { (result ≡ name_a w) × (result < lane) }
{
    (w % LANE) as usize
}

pub(crate) fn name_b(w: u64) -> usize
    ensures { (result ≡ name_b w) × (result < lane) }
{
    (w / LANE % LANE) as usize
}

pub(crate) fn name_c(w: u64) -> usize
    ensures { (result ≡ name_c w) × (result < lane) }
{
    (w / LANES % LANE) as usize
}

// What stands above the names: 0 in a word that is not full.
pub(crate) fn above(w: u64) -> u64
    ensures { (result ≡ above w) × (result < lane) }
{
    w / FULL
}

pub(crate) fn is_full(w: u64) -> bool
    ensures { result ≡ is_full w }
{
    FULL <= w
}

pub(crate) fn word_of(a: usize, b: usize, c: usize, top: u64) -> u64
    requires { (a < lane) × (b < lane) × (c < lane) × (top < lane) }
    ensures { result ≡ word_of a b c top }
{
    a as u64 + b as u64 * LANE + c as u64 * LANES + top * FULL
}

// The word names row r.
pub(crate) fn is_named(w: u64, r: usize) -> bool
    ensures { result ≡ named w r }
{
    (name_a(w) == r) | (name_b(w) == r) | (name_c(w) == r)
}

// ---- numbers of a guide

// The number at place k, 0 past the end.
pub(crate) fn number_at(guide: &[u64], k: usize) -> u64
    ensures { result ≡ get_or guide.now k 0 }
{
    guide.get(k).copied().unwrap_or(0)
}

// One more at place k, never above the most rows of a room.
pub(crate) fn more(guide: &mut [u64], k: usize)
    ensures { guide.new ≡ more_at guide.old k }
{
    let n = number_at(guide, k);
    if n < MOST {
        put_word(guide, k, n + 1);
    }
}

// One less at place k.
pub(crate) fn less(guide: &mut [u64], k: usize)
    ensures { guide.new ≡ less_at guide.old k }
{
    let n = number_at(guide, k);
    put_word(guide, k, n.saturating_sub(1));
}
