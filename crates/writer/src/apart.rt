// An event taken apart into its letter and numbers.
ghost use Rattle.std.specs.Prelude.{◌≡◌, ◌==◌, ◌&&◌, nat_le};
ghost use Rattle.std.specs.List.{list_all};
ghost use Rattle.lines.specs.Line.{most_handles};
ghost use Rattle.writer.specs.Apart.{are_empty, apart, apart_return};

use lines::{Event, ranges};
use words::Handle;

// The letter, how many numbers there are, their sizes at the front, and whether the one that may be below zero is. Ten at the most, in fixed memory: there is no heap.
#[derive(Clone, Copy)]
pub(crate) struct Taken {
    pub letter: u8,
    pub count: usize,
    pub minus: bool,
    pub values: [Handle; 10],
}

const MOST_HANDLES: u32 = 8;

// No slot names a handle.
fn are_empty(slots: &[Handle]) -> bool
    ensures { result ≡ list_all (λ x. x == 0) slots.now }
{
    slots.iter().all(|x| *x == 0)
}

// As many handles as there may be, and no slot past them names one.
fn are_named(h: [Handle; 8], n: u32) -> bool
    ensures { result ≡ (nat_le n most_handles && are_empty n h) }
{
    n <= MOST_HANDLES && are_empty(&h[n as usize..])
}

// What a function returns is its status, or its result where it has no status; the other is 0.
fn take_return(
    thread: u32,
    function: u32,
    res: Handle,
    status: i32,
    pending: u32,
    empty: bool,
) -> Option<Taken>
    ensures { result ≡ apart_return thread function res status pending empty }
{
    let t = thread as Handle;
    let f = function as Handle;
    let p = pending as Handle;
    if ranges::gives_status(function) {
        let size = numbers::size_of(status);
        return ((res == 0) & empty).then_some(Taken {
            letter: b'R',
            count: 4,
            minus: numbers::is_negative(status),
            values: [t, f, size, p, 0, 0, 0, 0, 0, 0],
        });
    }
    ((numbers::size_of(status) == 0) & empty).then_some(Taken {
        letter: b'R',
        count: 4,
        minus: false,
        values: [t, f, res, p, 0, 0, 0, 0, 0, 0],
    })
}

// None where the event has not its handles, or its result and status, as an event has them.
pub(crate) fn take_apart(e: Event, h: [Handle; 8]) -> Option<Taken>
    ensures { result ≡ apart e h }
{
    match e {
        Event::Enter { thread, env, count } => {
            let t = thread as Handle;
            are_named(h, count).then_some(Taken {
                letter: b'N',
                count: count as usize + 2,
                minus: false,
                values: [t, env, h[0], h[1], h[2], h[3], h[4], h[5], h[6], h[7]],
            })
        }
        Event::Leave { thread, result } => {
            let t = thread as Handle;
            are_empty(&h).then_some(Taken {
                letter: b'X',
                count: 2,
                minus: false,
                values: [t, result, 0, 0, 0, 0, 0, 0, 0, 0],
            })
        }
        Event::Call {
            thread,
            env,
            function,
            a,
            b,
            c,
            n,
        } => {
            let t = thread as Handle;
            let f = function as Handle;
            are_empty(&h).then_some(Taken {
                letter: b'C',
                count: 7,
                minus: numbers::is_negative(n),
                values: [t, env, f, a, b, c, numbers::size_of(n), 0, 0, 0],
            })
        }
        Event::Return {
            thread,
            function,
            result,
            status,
            pending,
        } => take_return(thread, function, result, status, pending, are_empty(&h)),
        Event::Attach { thread, env } => {
            let t = thread as Handle;
            are_empty(&h).then_some(Taken {
                letter: b'A',
                count: 2,
                minus: false,
                values: [t, env, 0, 0, 0, 0, 0, 0, 0, 0],
            })
        }
        Event::Detach { thread } => {
            let t = thread as Handle;
            are_empty(&h).then_some(Taken {
                letter: b'D',
                count: 1,
                minus: false,
                values: [t, 0, 0, 0, 0, 0, 0, 0, 0, 0],
            })
        }
        Event::Declare { class, superclass } => {
            let k = class as Handle;
            let s = superclass as Handle;
            are_empty(&h).then_some(Taken {
                letter: b'K',
                count: 2,
                minus: false,
                values: [k, s, 0, 0, 0, 0, 0, 0, 0, 0],
            })
        }
        Event::State {
            thread,
            handle,
            class,
        } => {
            let t = thread as Handle;
            let k = class as Handle;
            are_empty(&h).then_some(Taken {
                letter: b'O',
                count: 3,
                minus: false,
                values: [t, handle, k, 0, 0, 0, 0, 0, 0, 0],
            })
        }
        Event::Identify {
            identity,
            sort,
            class,
            isstatic,
            isfinal,
        } => {
            let s = sort as Handle;
            let k = class as Handle;
            let u = isstatic as Handle;
            let v = isfinal as Handle;
            are_empty(&h).then_some(Taken {
                letter: b'M',
                count: 5,
                minus: false,
                values: [identity, s, k, u, v, 0, 0, 0, 0, 0],
            })
        }
        Event::End => are_empty(&h).then_some(Taken {
            letter: b'Z',
            count: 0,
            minus: false,
            values: [0; 10],
        }),
    }
}
