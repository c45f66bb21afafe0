// The forms of lines: how many numbers a letter has, and the event that they are, or why they are none.
ghost use Rattle.std.specs.Prelude.{◌≡◌, true, get_or};
ghost use Rattle.words.specs.Choice.{within};
ghost use Rattle.numbers.specs.Signed.{signed};

use crate::refusal::Refusal;
use crate::{Event, MOST_FIELDS, ranges};
use words::Handle;
// `A` and `M` are taken in a contract.
ghost use Rattle.lines.specs.Line.{K, O, M as line_M, N, X, C, R, A as line_A, D, states};
ghost use Rattle.lines.specs.Forms.{form_of};
ghost use Rattle.lines.specs.Reading.{if_allowed};
ghost use Rattle.lines.specs.Events.{event_of};
ghost use Rattle.lines.specs.Sizes.{counts_of, right_count, line_in, named};

// How many numbers, at least and at most, and the place of the one that may be below zero.
#[derive(Clone, Copy)]
pub struct Counts {
    pub least: usize,
    pub most: usize,
    pub signed: usize,
}

// None of the numbers may be below zero. An Option is no plainer: a place past the last is compared as any other, and specs/Forms.antt has it so.
pub const NO_PLACE: usize = MOST_FIELDS;

pub fn counts_of(letter: u8) -> Counts
    ensures { result ≡ counts_of (form_of letter) }
{
    match letter {
        b'N' => Counts {
            least: 2,
            most: MOST_FIELDS,
            signed: NO_PLACE,
        },
        b'X' => Counts {
            least: 2,
            most: 2,
            signed: NO_PLACE,
        },
        b'C' => Counts {
            least: 7,
            most: 7,
            signed: 6,
        },
        b'R' => Counts {
            least: 4,
            most: 4,
            signed: 2,
        },
        b'A' => Counts {
            least: 2,
            most: 2,
            signed: NO_PLACE,
        },
        b'D' => Counts {
            least: 1,
            most: 1,
            signed: NO_PLACE,
        },
        b'K' => Counts {
            least: 2,
            most: 2,
            signed: NO_PLACE,
        },
        b'O' => Counts {
            least: 3,
            most: 3,
            signed: NO_PLACE,
        },
        b'M' => Counts {
            least: 5,
            most: 5,
            signed: NO_PLACE,
        },
        b'Z' => Counts {
            least: 0,
            most: 0,
            signed: NO_PLACE,
        },
        _ => Counts {
            least: 1,
            most: 0,
            signed: NO_PLACE,
        },
    }
}

// As many numbers as the letter has.
pub(crate) fn right_count(letter: u8, n: usize) -> bool
    ensures { result ≡ right_count letter n }
{
    let c = counts_of(letter);
    (c.least <= n) & (n <= c.most)
}

fn enter(v: [Handle; 10], n: usize) -> Result<Event, Refusal>
    requires { within 2 10 n ≡ true }
    ensures { result ≡ event_of (if_allowed (N (get_or v 0 0) (get_or v 1 0) (named n v))) }
{
    if !ranges::enter_allows(v[0], v[1], v, n) {
        return Err(Refusal::Range);
    }
    Ok(Event::Enter {
        thread: v[0] as u32,
        env: v[1],
        count: (n - 2) as u32,
    })
}

fn leave(thread: Handle, res: Handle) -> Result<Event, Refusal>
    ensures { result ≡ event_of (if_allowed (X thread res)) }
{
    if !ranges::leave_allows(thread, res) {
        return Err(Refusal::Range);
    }
    Ok(Event::Leave {
        thread: thread as u32,
        result: res,
    })
}

fn call(
    thread: Handle,
    env: Handle,
    function: Handle,
    a: Handle,
    b: Handle,
    c: Handle,
    minus: bool,
    n: Handle,
) -> Result<Event, Refusal>
    ensures { result ≡ event_of (if_allowed (C thread env function a b c (signed minus n))) }
{
    if !ranges::is_function(function) {
        return Err(Refusal::Range);
    }
    let f = function as u32;
    if !ranges::call_allows(thread, env, f, a, b, c, minus, n) {
        return Err(Refusal::Range);
    }
    Ok(Event::Call {
        thread: thread as u32,
        env,
        function: f,
        a,
        b,
        c,
        n: ranges::int_of(minus, n),
    })
}

fn returns(
    thread: Handle,
    function: Handle,
    minus: bool,
    res: Handle,
    pending: Handle,
) -> Result<Event, Refusal>
    ensures { result ≡ event_of (if_allowed (R thread function (signed minus res) pending)) }
{
    if !ranges::is_function(function) {
        return Err(Refusal::Range);
    }
    let f = function as u32;
    let k = facts::result_of(f);
    if !ranges::return_allows(thread, f, k, minus, res, pending) {
        return Err(Refusal::Range);
    }
    if ranges::is_status(k) {
        return Ok(Event::Return {
            thread: thread as u32,
            function: f,
            result: 0,
            status: ranges::int_of(minus, res),
            pending: pending as u32,
        });
    }
    Ok(Event::Return {
        thread: thread as u32,
        function: f,
        result: res,
        status: 0,
        pending: pending as u32,
    })
}

fn attach(thread: Handle, env: Handle) -> Result<Event, Refusal>
    ensures { result ≡ event_of (if_allowed (line_A thread env)) }
{
    if !ranges::attach_allows(thread, env) {
        return Err(Refusal::Range);
    }
    Ok(Event::Attach {
        thread: thread as u32,
        env,
    })
}

fn detach(thread: Handle) -> Result<Event, Refusal>
    ensures { result ≡ event_of (if_allowed (D thread)) }
{
    if !ranges::detach_allows(thread) {
        return Err(Refusal::Range);
    }
    Ok(Event::Detach {
        thread: thread as u32,
    })
}

fn declare(class: Handle, superclass: Handle) -> Result<Event, Refusal>
    ensures { result ≡ event_of (if_allowed (states (K class superclass))) }
{
    if !ranges::declare_allows(class, superclass) {
        return Err(Refusal::Range);
    }
    Ok(Event::Declare {
        class: class as u32,
        superclass: superclass as u32,
    })
}

fn state(thread: Handle, handle: Handle, class: Handle) -> Result<Event, Refusal>
    ensures { result ≡ event_of (if_allowed (states (O thread handle class))) }
{
    if !ranges::state_allows(thread, handle, class) {
        return Err(Refusal::Range);
    }
    Ok(Event::State {
        thread: thread as u32,
        handle,
        class: class as u32,
    })
}

fn identify(
    identity: Handle,
    sort: Handle,
    class: Handle,
    isstatic: Handle,
    isfinal: Handle,
) -> Result<Event, Refusal>
    ensures { result ≡ event_of (if_allowed (states (line_M identity sort class isstatic isfinal))) }
{
    if !ranges::identify_allows(identity, sort, class, isstatic, isfinal) {
        return Err(Refusal::Range);
    }
    Ok(Event::Identify {
        identity,
        sort: sort as u32,
        class: class as u32,
        isstatic: isstatic as u32,
        isfinal: isfinal as u32,
    })
}

// The event of a letter and n numbers: their sizes, and whether the one that may be below zero is.
pub fn event_of(letter: u8, n: usize, minus: bool, v: [Handle; 10]) -> Result<Event, Refusal>
    ensures { result ≡ event_of (line_in letter n minus v) }
{
    if !right_count(letter, n) {
        return Err(Refusal::Form);
    }
    match letter {
        b'N' => enter(v, n),
        b'X' => leave(v[0], v[1]),
        b'C' => call(v[0], v[1], v[2], v[3], v[4], v[5], minus, v[6]),
        b'R' => returns(v[0], v[1], minus, v[2], v[3]),
        b'A' => attach(v[0], v[1]),
        b'D' => detach(v[0]),
        b'K' => declare(v[0], v[1]),
        b'O' => state(v[0], v[1], v[2]),
        b'M' => identify(v[0], v[1], v[2], v[3], v[4]),
        _ => Ok(Event::End),
    }
}
