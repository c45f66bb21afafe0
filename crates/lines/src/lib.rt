// Lines of a trace: their events, and the reader.
#![tactic(auto)]

ghost use Rattle.std.specs.Prelude.{◌≡◌, ◌≤◌};
ghost use Rattle.lines.specs.Reading.{read};
ghost use Rattle.lines.specs.Events.{event_of, padded, slots_of};
ghost use Rattle.lines.specs.Sizes.{named};

use refusal::Refusal;
use words::Handle;

pub mod apart; // apart.rt: a line's letter and numbers
pub mod forms; // forms.rt: how many numbers a letter has, and the event that they are
mod heads; // heads.rt: the letter of a line and the sizes of its numbers
pub mod ranges; // ranges.rt: the ranges of those numbers
pub mod refusal; // refusal.rt: why a line is refused

pub const TAB: u8 = b'\t';

pub const LINE_FEED: u8 = b'\n';
// A line has at most 224 bytes before LF.
pub const LONGEST: usize = 224;

// Thread, env and eight handles.
pub const MOST_FIELDS: usize = 10;

// A line as the code has it. N's handles stand in eight slots beside it.
#[derive(Clone, Copy)]
pub enum Event {
    Enter {
        thread: u32,
        env: Handle,
        count: u32,
    },
    Leave {
        thread: u32,
        result: Handle,
    },
    Call {
        thread: u32,
        env: Handle,
        function: u32,
        a: Handle,
        b: Handle,
        c: Handle,
        n: i32,
    },
    // What a function returns is its status, or its result where it has no status; the other is 0.
    Return {
        thread: u32,
        function: u32,
        result: Handle,
        status: i32,
        pending: u32,
    },
    Attach {
        thread: u32,
        env: Handle,
    },
    Detach {
        thread: u32,
    },
    Declare {
        class: u32,
        superclass: u32,
    },
    State {
        thread: u32,
        handle: Handle,
        class: u32,
    },
    Identify {
        identity: Handle,
        sort: u32,
        class: u32,
        isstatic: u32,
        isfinal: u32,
    },
    End,
}

// The handles that N names, after thread and env. By their places, as in ranges::are_arguments.
fn named(v: [Handle; 10], n: usize) -> [Handle; 8]
    requires { (2 ≤ n) × (n ≤ 10) }
    ensures { result ≡ padded (named n v) }
{
    let mut h = [0; 8];
    for i in 2..n {
        h[i - 2] = v[i];
    }
    h
}

// Reads a lent line, all its bytes with the LF: the event, or why there is none. N's handles are left in the slots, all 0 for any other answer.
pub fn read_line(s: &[u8], handles: &mut [Handle; 8]) -> Result<Event, Refusal>
    ensures { (result ≡ event_of (read s.now)) × (handles.new ≡ slots_of (read s.now)) }
{
    *handles = [0; 8];
    let mut values = [0; 10];
    let head = heads::take_line(s, &mut values)?;
    let n = head.count;
    let e = forms::event_of(head.letter, n, head.minus, values)?;
    if let Event::Enter { .. } = e {
        *handles = named(values, n);
    }
    Ok(e)
}
