// The ranges of a line's numbers.
ghost use Rattle.std.specs.Prelude.{◌≡◌, true, not, ◌≤◌, pos};
ghost use Rattle.words.specs.Lists.{any};
ghost use Rattle.numbers.specs.Signed.{signed, is_i32};
ghost use Rattle.facts.specs.Table.{fact_of, is_function};

use facts::functions::{ENSURE_LOCAL_CAPACITY, PUSH_LOCAL_FRAME};
use facts::handles::{GLOBAL, IDENTITY, KINDS, LOCAL, WEAK};
use facts::identities::{FIELD, METHOD};
use facts::{Place, Result};
use words::{Handle, LARGEST};
// `A` and `M` are taken in a contract.
ghost use Rattle.lines.specs.Line.{K, O, M as line_M, N, X, C, R, A as line_A, D, states, is_allowed, is_thread, is_env, is_class, is_identity, is_sort, is_argument, is_made, value_allows, place_allows, capacity_allows, result_allows};
ghost use Rattle.lines.specs.Events.{is_status, gives_status};
ghost use Rattle.lines.specs.Sizes.{named};

pub const THREADS: u32 = 16;

// Classes are numbered from 1 to here.
pub const CLASSES: u32 = 4095;

const FIRST_FUNCTION: Handle = 4;

const LAST_FUNCTION: Handle = 232;

pub(crate) fn is_status(k: Result) -> bool
    ensures { result ≡ is_status k }
{
    matches!(k, Result::Status)
}

pub fn gives_status(f: u32) -> bool
    ensures { result ≡ gives_status f }
{
    is_status(facts::result_of(f))
}

fn is_thread(t: Handle) -> bool
    ensures { result ≡ is_thread t }
{
    (1..=THREADS as Handle).contains(&t)
}

fn is_env(e: Handle) -> bool
    ensures { result ≡ is_env e }
{
    (1..=LARGEST).contains(&e)
}

pub(crate) fn is_function(f: Handle) -> bool
    ensures { result ≡ is_function f }
{
    (FIRST_FUNCTION..=LAST_FUNCTION).contains(&f)
}

fn is_class(c: Handle) -> bool
    ensures { result ≡ is_class c }
{
    (1..=CLASSES as Handle).contains(&c)
}

fn is_identity(x: Handle) -> bool
    ensures { result ≡ is_identity x }
{
    (1..=LARGEST).contains(&x) & (x % KINDS == IDENTITY)
}

fn is_sort(s: Handle) -> bool
    ensures { result ≡ is_sort s }
{
    (METHOD..=FIELD).contains(&s)
}

fn is_argument(h: Handle) -> bool
    ensures { result ≡ is_argument h }
{
    (h % KINDS == LOCAL) & (h <= LARGEST)
}

fn place_allows(p: Place, v: Handle) -> bool
    ensures { result ≡ place_allows p v }
{
    match p {
        Place::Unused => v == 0,
        _ => v <= LARGEST,
    }
}

// A number of signed 32 bits.
fn is_i32(minus: bool, size: Handle) -> bool
    ensures { result ≡ is_i32 (signed minus size) }
{
    numbers::int_of(minus, size).is_some()
}

pub(crate) fn int_of(minus: bool, size: Handle) -> i32
    requires { is_i32 (signed minus size) ≡ true }
    ensures { result ≡ signed minus size }
{
    numbers::int_of(minus, size).unwrap()
}

fn capacity_allows(f: u32, minus: bool, size: Handle) -> bool
    ensures { result ≡ capacity_allows f (signed minus size) }
{
    if (f == PUSH_LOCAL_FRAME) | (f == ENSURE_LOCAL_CAPACITY) {
        return is_i32(minus, size);
    }
    size == 0
}

// A result that is 0 or a handle of kind k.
fn made_allows(k: Handle, v: Handle) -> bool
    ensures { result ≡ value_allows (is_made k) (pos v) }
{
    (v <= LARGEST) & ((v == 0) | (v % KINDS == k))
}

fn value_allows(k: Result, v: Handle) -> bool
    ensures { result ≡ result_allows k (pos v) }
{
    match k {
        Result::Status => is_i32(false, v),
        Result::Local => made_allows(LOCAL, v),
        Result::Global => made_allows(GLOBAL, v),
        Result::Weak => made_allows(WEAK, v),
        Result::Identity => made_allows(IDENTITY, v),
        Result::Buffer => v <= LARGEST,
        Result::Nothing => v == 0,
    }
}

// Only a status may be below zero.
fn result_allows(k: Result, minus: bool, size: Handle) -> bool
    ensures { result ≡ result_allows k (signed minus size) }
{
    if minus & (size != 0) {
        return is_status(k) & is_i32(minus, size);
    }
    value_allows(k, size)
}

// The handles that N names, after thread and env. By their places: a slice of them takes the array a place on the stack, for which the functions for C have a bound.
fn are_arguments(v: [Handle; 10], n: usize) -> bool
    requires { n ≤ 10 }
    ensures { result ≡ not (any (λ x. not (is_argument x)) (named n v)) }
{
    let mut ok = true;
    for i in 2..n {
        ok &= is_argument(v[i]);
    }
    ok
}

pub(crate) fn attach_allows(thread: Handle, env: Handle) -> bool
    ensures { result ≡ is_allowed (line_A thread env) }
{
    is_thread(thread) & is_env(env)
}

pub(crate) fn detach_allows(thread: Handle) -> bool
    ensures { result ≡ is_allowed (D thread) }
{
    is_thread(thread)
}

pub(crate) fn enter_allows(thread: Handle, env: Handle, v: [Handle; 10], n: usize) -> bool
    requires { n ≤ 10 }
    ensures { result ≡ is_allowed (N thread env (named n v)) }
{
    attach_allows(thread, env) & are_arguments(v, n)
}

pub(crate) fn leave_allows(thread: Handle, res: Handle) -> bool
    ensures { result ≡ is_allowed (X thread res) }
{
    is_thread(thread) & (res <= LARGEST)
}

pub(crate) fn call_allows(
    thread: Handle,
    env: Handle,
    f: u32,
    a: Handle,
    b: Handle,
    c: Handle,
    minus: bool,
    n: Handle,
) -> bool
    requires { is_function f ≡ true }
    ensures { result ≡ is_allowed (C thread env f a b c (signed minus n)) }
{
    let at = facts::places::places_of(f);
    let pa = at.a;
    let pb = at.b;
    let pc = at.c;
    attach_allows(thread, env)
        & place_allows(pa, a)
        & place_allows(pb, b)
        & place_allows(pc, c)
        & capacity_allows(f, minus, n)
}

// `k` is what the function gives back.
pub(crate) fn return_allows(
    thread: Handle,
    f: u32,
    k: Result,
    minus: bool,
    res: Handle,
    pending: Handle,
) -> bool
    requires { (is_function f ≡ true) × (k ≡ (fact_of f).result) }
    ensures { result ≡ is_allowed (R thread f (signed minus res) pending) }
{
    is_thread(thread) & result_allows(k, minus, res) & (pending <= 1)
}

pub(crate) fn declare_allows(class: Handle, superclass: Handle) -> bool
    ensures { result ≡ is_allowed (states (K class superclass)) }
{
    is_class(class) & is_class(superclass)
}

pub(crate) fn state_allows(thread: Handle, handle: Handle, class: Handle) -> bool
    ensures { result ≡ is_allowed (states (O thread handle class)) }
{
    is_thread(thread) & (handle <= LARGEST) & is_class(class)
}

pub(crate) fn identify_allows(
    identity: Handle,
    sort: Handle,
    class: Handle,
    isstatic: Handle,
    isfinal: Handle,
) -> bool
    ensures { result ≡ is_allowed (states (line_M identity sort class isstatic isfinal)) }
{
    is_identity(identity) & is_sort(sort) & is_class(class) & (isstatic <= 1) & (isfinal <= 1)
}
