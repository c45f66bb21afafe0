// Decimal numbers in byte slices: read without a copy, and written in place.
#![tactic(auto)]

ghost use Rattle.std.specs.Prelude.{◌≡◌, ◌∷◌, ◌+◌, ◌<◌, ◌≤◌, ◌==◌, nat_abs, length};
ghost use Rattle.std.specs.List.{list_all, position_or_len};
ghost use Rattle.numbers.specs.Decimal.{minus_sign, digits, shown, is_digit};
ghost use Rattle.numbers.specs.Reading.{found, found_on, tested, skipped, out_or_bad, field_at, starts_minus, negated};
ghost use Rattle.numbers.specs.Writing.{put, Puts};
ghost use Rattle.numbers.specs.Signed.{signed, is_negative, as_int};

const ZERO: u8 = b'0';

const NINE: u8 = b'9';

const MINUS: u8 = b'-';

// What a field is: a size within the bound, with its sign; a number out of the bound; no number.
#[derive(Clone, Copy)]
pub enum Field {
    Plus(u64),
    Minus(u64),
    Out,
    Bad,
}

// A field, and the place past it.
#[derive(Clone, Copy)]
pub struct Found {
    pub field: Field,
    pub next: usize,
}

// By two comparisons, as the definition has it.
fn is_digit(b: u8) -> bool
    ensures { result ≡ is_digit b }
{
    (ZERO <= b) & (b <= NINE)
}

fn all_digits(s: &[u8]) -> bool
    ensures { result ≡ list_all is_digit s.now }
{
    s.iter().all(|b| is_digit(*b))
}

// The place of the first byte that stops a field, or the end.
fn place_of(s: &[u8], stop: u8) -> usize
    ensures { result ≡ position_or_len (λ b. b == stop) s.now }
{
    s.iter().position(|b| *b == stop).unwrap_or(s.len())
}

fn out_or_bad(ok: bool) -> Field
    ensures { result ≡ out_or_bad ok }
{
    if ok { Field::Out } else { Field::Bad }
}

// The rest of a field whose number is out of the bound already, or that is no number.
fn skip(s: &[u8], at: usize, stop: u8) -> Found
    requires { at ≤ length s.now }
    ensures { result ≡ skipped stop s.now at }
{
    let rest = &s[at..];
    let n = place_of(rest, stop);
    Found {
        field: out_or_bad(all_digits(&rest[..n])),
        next: at + n,
    }
}

// Digits read on from a number, each tested against the bound.
fn read_on(s: &[u8], at: usize, stop: u8, start: u64, max: u64) -> Found
    requires { (start ≤ max) × (at ≤ length s.now) }
    ensures { result ≡ found_on max stop s.now at start }
{
    let tenth = max / 10;
    let mut n = start;
    for i in at..s.len() {
        let b = s[i];
        if b == stop {
            return Found {
                field: Field::Plus(n),
                next: i,
            };
        }
        if !is_digit(b) {
            return skip(s, i, stop);
        }
        if tenth < n {
            return skip(s, i, stop);
        }
        let d = u64::from(b - ZERO);
        let tens = n * 10;
        if max - tens < d {
            return skip(s, i, stop);
        }
        n = tens + d;
    }
    Found {
        field: Field::Plus(n),
        next: s.len(),
    }
}

// The same from 0, with one test a digit while any digit keeps the number in the bound.
fn read_digits(s: &[u8], at: usize, stop: u8, max: u64) -> Found
    ensures { result ≡ found_on max stop s.now at 0 }
{
    let tenth = max / 10;
    let stop_is_digit = is_digit(stop);
    let mut n = 0;
    for i in at..s.len() {
        let b = s[i];
        if stop_is_digit | !is_digit(b) {
            if b == stop {
                return Found {
                    field: Field::Plus(n),
                    next: i,
                };
            }
            return read_on(s, i, stop, n, max);
        }
        if tenth <= n {
            return read_on(s, i, stop, n, max);
        }
        n = n * 10 + u64::from(b - ZERO);
    }
    Found {
        field: Field::Plus(n),
        next: at.max(s.len()),
    }
}

// What digits say: no number where there are none, or where a zero stands before others.
fn as_decimal(s: &[u8], at: usize, r: Found) -> Found
    requires { at < r.next → at < length s.now }
    ensures { result ≡ tested s.now at r }
{
    if r.next <= at || (s[at] == ZERO && 1 < r.next - at) {
        return Found {
            field: Field::Bad,
            next: r.next,
        };
    }
    r
}

// What digits are after a minus.
fn negate(f: Field) -> Field
    ensures { result ≡ negated f }
{
    match f {
        Field::Plus(0) => Field::Bad,
        Field::Plus(n) => Field::Minus(n),
        Field::Out => Field::Out,
        Field::Minus(_) | Field::Bad => Field::Bad,
    }
}

// The field at a place starts with a minus.
fn starts_minus(s: &[u8], at: usize, stop: u8) -> bool
    ensures { result ≡ starts_minus (field_at s.now at stop) }
{
    match s.get(at) {
        Some(b) => (*b == MINUS) & (stop != MINUS),
        None => false,
    }
}

// The field of s from a place up to the first byte that stops it, or the end of s.
pub fn read(s: &[u8], at: usize, stop: u8, max: u64) -> Found
    ensures { result ≡ found max stop s.now at }
{
    // A branch, not a sum of the place and the sign: the place of the next field then waits for no byte.
    if starts_minus(s, at, stop) {
        let past = at + 1;
        let r = as_decimal(s, past, read_on(s, past, stop, 0, max));
        return Found {
            field: negate(r.field),
            next: r.next,
        };
    }
    as_decimal(s, at, read_digits(s, at, stop, max))
}

// A sign and a size as a signed 32-bit number; none where it is out of 32 bits.
pub fn int_of(minus: bool, size: u64) -> Option<i32>
    ensures { result ≡ as_int (signed minus size) }
{
    let n = i128::from(size);
    i32::try_from(if minus { -n } else { n }).ok()
}

// The size of a signed number.
pub fn size_of(n: i32) -> u64
    ensures { result ≡ nat_abs n }
{
    u64::from(n.unsigned_abs())
}

// A signed number is below zero.
pub fn is_negative(n: i32) -> bool
    ensures { result ≡ is_negative n }
{
    n.is_negative()
}

// How many digits n has.
pub fn width(n: u64) -> usize
    ensures { (result ≡ length (digits n)) × (result ≤ 20) }
{
    n.checked_ilog10().unwrap_or(0) as usize + 1
}

// Writes the digits of n, of which there are w, from at on, the last one first; what is past them.
fn fill(d: &mut [u8], at: usize, w: usize, n: u64) -> usize
    requires { (w ≡ length (digits n)) × (at + w ≤ length d.old) }
    ensures { (result ≡ at + length (digits n)) × (d.new ≡ put d.old at (digits n)) }
{
    let end = at + w;
    let mut rest = n;
    for i in (at..end).rev() {
        d[i] = ZERO + (rest % 10) as u8;
        rest = rest / 10;
    }
    end
}

// Writes n at a place; the place past it, or none where there is no room and nothing is written.
pub fn write(d: &mut [u8], at: usize, n: u64) -> Option<usize>
    ensures { Puts d.old at (digits n) result d.new }
{
    let w = width(n);
    if d.len() < w || d.len() - w < at {
        return None;
    }
    Some(fill(d, at, w, n))
}

// Writes a minus and the digits of n.
fn write_below(d: &mut [u8], at: usize, n: u64) -> Option<usize>
    ensures { Puts d.old at (minus_sign ∷ digits n) result d.new }
{
    let w = width(n);
    if d.len() <= w || d.len() - w <= at {
        return None;
    }
    d[at] = MINUS;
    Some(fill(d, at + 1, w, n))
}

// How many bytes a number has, by its sign and its size.
pub fn width_signed(minus: bool, size: u64) -> usize
    ensures { (result ≡ length (shown (signed minus size))) × (result ≤ 21) }
{
    if minus & (size != 0) {
        return width(size) + 1;
    }
    width(size)
}

// Writes a number by its sign and its size.
pub fn write_signed(d: &mut [u8], at: usize, minus: bool, size: u64) -> Option<usize>
    ensures { Puts d.old at (shown (signed minus size)) result d.new }
{
    if minus & (size != 0) {
        return write_below(d, at, size);
    }
    write(d, at, size)
}
