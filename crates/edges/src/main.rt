// Reads cases from standard input and prints what the reader answers to each: the case's name, then the number given instead of an
// event, or the event's letter and numbers. An N has its count and all eight slots; an R has its result, then its status.
#![tactic(auto)]

ghost use Rattle.std.specs.Prelude.{◌<◌, ◌≤◌, length, IfSome, IfOk};

use lines::{Event, LINE_FEED, TAB};
use std::io;
use std::io::{Read, Stdin};
use words::Handle;

// A line of the input that begins with it, or is empty, is no case. A case is a name, a tab, and what spells a line's bytes.
const COMMENT: u8 = b'#';

// What spells a tab and LF, and what stands before the two digits of another byte.
const TAB_SPELLED: u8 = b'|';

const LF_SPELLED: u8 = b'$';

const ESCAPE: u8 = b'\\';

fn put_number(rt: &impl Print, n: Handle) -> io::Result<()> {
    print!(rt; " {n}")
}

fn put_numbers(rt: &impl Print, letter: &[u8], n: &[Handle]) -> io::Result<()> {
    rt.write_all(letter)?;
    for x in n {
        put_number(rt, *x)?;
    }
    Ok(())
}

fn put_signed(rt: &impl Print, n: i32) -> io::Result<()> {
    print!(rt; " {n}")
}

fn put_event(rt: &impl Print, e: Event, h: &[Handle; 8]) -> io::Result<()> {
    match e {
        Event::Enter { thread, env, count } => {
            put_numbers(rt, b" N", &[thread as Handle, env, count as Handle])?;
            put_numbers(rt, b"", h)
        }
        Event::Leave { thread, result } => put_numbers(rt, b" X", &[thread as Handle, result]),
        Event::Call {
            thread,
            env,
            function,
            a,
            b,
            c,
            n,
        } => {
            put_numbers(
                rt,
                b" C",
                &[thread as Handle, env, function as Handle, a, b, c],
            )?;
            put_signed(rt, n)
        }
        Event::Return {
            thread,
            function,
            result,
            status,
            pending,
        } => {
            put_numbers(rt, b" R", &[thread as Handle, function as Handle, result])?;
            put_signed(rt, status)?;
            put_number(rt, pending as Handle)
        }
        Event::Attach { thread, env } => put_numbers(rt, b" A", &[thread as Handle, env]),
        Event::Detach { thread } => put_numbers(rt, b" D", &[thread as Handle]),
        Event::Declare { class, superclass } => put_numbers(
            rt,
            b" K",
            &[class as Handle, superclass as Handle],
        ),
        Event::State {
            thread,
            handle,
            class,
        } => put_numbers(rt, b" O", &[thread as Handle, handle, class as Handle]),
        Event::Identify {
            identity,
            sort,
            class,
            isstatic,
            isfinal,
        } => put_numbers(
            rt,
            b" M",
            &[
                identity,
                sort as Handle,
                class as Handle,
                isstatic as Handle,
                isfinal as Handle,
            ],
        ),
        Event::End => rt.write_all(b" Z"),
    }
}

// A hexadecimal digit.
fn digit(b: u8) -> Option<u8>
    ensures { IfSome result (λ d. d < 16) }
{
    match b {
        b'0'..=b'9' => Some(b - b'0'),
        b'a'..=b'f' => Some(b - b'a' + 10),
        _ => None,
    }
}

// The byte that b alone spells.
fn byte_of(b: u8) -> Option<u8> {
    match b {
        TAB_SPELLED => Some(TAB),
        LF_SPELLED => Some(LINE_FEED),
        ESCAPE => None,
        _ => Some(b),
    }
}

// The byte that s spells first.
fn first_byte(s: &[u8]) -> Option<u8>
    requires { 0 < length s.now }
{
    if 2 < s.len() && s[0] == ESCAPE {
        return Some(digit(s[1])? * 16 + digit(s[2])?);
    }
    byte_of(s[0])
}

// Puts the bytes that s spells after its tab into line and answers how many; none where there is no tab, s is too long or
// a byte is badly written.
fn decode(s: &[u8], line: &mut [u8]) -> Option<usize>
    requires { length line.old ≤ 4096 }
    ensures { IfSome result (λ n. n ≤ length line.new) }
{
    if s.len() == 0 || line.len() < s.len() {
        return None;
    }
    let mut from = 1;
    let mut n = 0;
    // No chain is plainer: one byte is spelled by one or by three.
    while from < s.len() {
        line[n] = first_byte(&s[from..])?;
        n += 1;
        if s[from] == ESCAPE {
            from += 2;
        }
        from += 1;
    }
    Some(n)
}

// The slots are filled beforehand, so that what the reader leaves in them shows.
fn put_answer(rt: &impl Print, s: &[u8]) -> io::Result<()> {
    let mut line = [0; 4096];
    let Some(n) = decode(s, &mut line) else {
        return rt.write_all(b" badly written or too long");
    };
    let mut h = [7; 8];
    match lines::read_line(&line[..n], &mut h) {
        Ok(e) => put_event(rt, e, &h),
        Err(k) => put_number(rt, Handle::from(k.number())),
    }
}

fn show(rt: &impl Print, s: &[u8]) -> io::Result<()> {
    if matches!(s.first(), None | Some(&COMMENT)) {
        return Ok(());
    }
    let to = s.iter().position(|b| *b == TAB).unwrap_or(s.len());
    rt.write_all(&s[..to])?;
    rt.write_all(b":")?;
    put_answer(rt, &s[to..])?;
    rt.write_all(b"\n")
}

fn show_all(rt: &impl Print, s: &[u8]) -> io::Result<()>
    requires { length s.now < 65536 }
{
    for case in s.split(|b| *b == LINE_FEED) {
        show(rt, case)?;
    }
    Ok(())
}

// Reads until the buffer is full or the input ends; how many bytes it put at the front.
fn read_full(mut stdin: Stdin, buf: &mut [u8]) -> io::Result<usize>
    ensures { IfOk result (λ n. n ≤ length buf.new) }
{
    let mut done = 0;
    // No chain is plainer: a read may give less than is asked for, and there is no heap for `read_to_end`.
    while done < buf.len() {
        let n = stdin.read(&mut buf[done..])?;
        if n == 0 {
            break;
        }
        done += n;
    }
    Ok(done)
}

fn main(rt: HostRuntime) -> io::Result<()> {
    let mut cases = [0; 65536];
    let n = read_full(rt.stdin(), &mut cases)?;
    if n == cases.len() {
        return rt.write_all(b"too many cases\n");
    }
    show_all(&rt, &cases[..n])
}
