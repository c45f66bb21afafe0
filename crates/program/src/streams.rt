// Standard input and standard output: how much has gone through them. The numbers of `Streams` are changed here alone, by calls of `read` and `write_all`; `moved`, a sum of them
// that is kept apart, shuts out `Streams` of before the last call.
ghost use Rattle.std.specs.Prelude.{◌≡◌, ◌||◌, ◌≤◌, ◌<◌, length, IfSome};
ghost use Rattle.program.specs.Progress.{buffer_size, Few};
ghost use Rattle.program.specs.Printing.{nothing_yet, Newest, Due, with_read, HasRead, with_printed, HasPrinted};

use std::io::{Read, Stdin, Stdout};

// Three flags and no enum: a read and a write may both have failed, and what has ended stays so behind a read that fails.
// Whether the leaks are printed behind the report; how many bytes were read, whether the input has ended behind them, whether a read failed, how many bytes were printed and whether a write failed.
#[derive(Clone, Copy)]
pub(crate) struct Streams {
    leaks: bool,
    read: usize,
    ended: bool,
    unreadable: bool,
    printed: usize,
    unwritable: bool,
}

// Nothing has gone through them.
pub(crate) fn untouched(leaks: bool) -> Streams
    ensures { result ≡ nothing_yet leaks }
{
    Streams {
        leaks,
        read: 0,
        ended: false,
        unreadable: false,
        printed: 0,
        unwritable: false,
    }
}

pub(crate) fn with_leaks(streams: Streams) -> bool
    ensures { result ≡ streams.leaks }
{
    streams.leaks
}

pub(crate) fn bytes_read(streams: Streams) -> usize
    ensures { result ≡ streams.read }
{
    streams.read
}

pub(crate) fn has_ended(streams: Streams) -> bool
    ensures { result ≡ streams.ended }
{
    streams.ended
}

pub(crate) fn is_unreadable(streams: Streams) -> bool
    ensures { result ≡ streams.unreadable }
{
    streams.unreadable
}

pub(crate) fn is_unwritable(streams: Streams) -> bool
    ensures { result ≡ streams.unwritable }
{
    streams.unwritable
}

pub(crate) fn has_failed(streams: Streams) -> bool
    ensures { result ≡ streams.unreadable || streams.unwritable }
{
    streams.unreadable | streams.unwritable
}

// After a read that answered so. The input has ended where it gave nothing.
fn after_read(streams: Streams, got: Option<usize>) -> Streams
    requires { IfSome got (λ n. n ≤ buffer_size) × Few streams 0 }
    ensures { result ≡ with_read streams got }
{
    let mut next = streams;
    match got {
        Some(given) => {
            next.read = streams.read + given;
            next.ended = given == 0;
        }
        None => next.unreadable = true,
    }
    next
}

// Takes bytes in, of standard input, where there is room for some.
pub(crate) fn take_in(
    streams: Streams,
    moved: &mut usize,
    mut stdin: Stdin,
    bytes: &mut [u8],
) -> Streams
    requires { Newest streams moved.old × (0 < length bytes.old) × (length bytes.old ≤ buffer_size) × Few streams 0 }
    ensures { HasRead streams (length bytes.old) result × Newest result moved.new }
{
    let got = stdin.read(bytes).ok();
    let next = after_read(streams, got);
    *moved = next.read + next.printed;
    next
}

// After a write of so many bytes that answered so.
fn after_write(streams: Streams, n: usize, written: bool) -> Streams
    requires { Few streams n }
    ensures { result ≡ with_printed streams n written }
{
    let mut next = streams;
    next.printed = streams.printed + n;
    next.unwritable = streams.unwritable | !written;
    next
}

// Hands bytes over to standard output: those that come next.
pub(crate) fn hand_over(
    streams: Streams,
    moved: &mut usize,
    stdout: Stdout,
    bytes: &[u8],
) -> Streams
    requires { Newest streams moved.old × Due streams bytes.now × Few streams (length bytes.now) }
    ensures { HasPrinted streams (length bytes.now) result × Newest result moved.new }
{
    let written = stdout.write_all(bytes).is_ok();
    let next = after_write(streams, bytes.len(), written);
    *moved = next.read + next.printed;
    next
}
