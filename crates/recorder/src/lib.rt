// The writer of lines for C: one function for each kind of line, on numbers and a lent byte slice.
#![tactic(auto)]

ghost use Rattle.std.specs.Prelude.{◌≡◌, Ok};
ghost use Rattle.lines.specs.declared.Event.TheVariants.{Enter, Leave, Call, Return, Attach, Detach, Declare, State, Identify, End};
ghost use Rattle.lines.specs.Events.{meant, wrote, left};
ghost use Rattle.recorder.specs.Told.{told, no_handles};

use lines::Event;
use words::Handle;

// Writes the line of an event at the start of d and tells how many bytes it has, or, below zero, the number given instead.
fn tell(d: &mut [u8], e: Event, handles: &[Handle; 8]) -> i32
    ensures value { result ≡ told (wrote (meant (Ok e) handles.now) d.old) }
    ensures d_after { d.new ≡ left (meant (Ok e) handles.now) d.old }
{
    match writer::write_line(d, Ok(e), handles) {
        Ok(n) => n as i32,
        Err(k) => k.told(),
    }
}

// N: Java enters native. The first `count` of the eight slots are its handles, and the others are 0.
pub fn weir_enter(d: &mut [u8], thread: u32, env: Handle, count: u32, handles: &[Handle; 8]) -> i32
    ensures value { result ≡ told (wrote (meant (Ok (Enter thread env count)) handles.now) d.old) }
    ensures d_after { d.new ≡ left (meant (Ok (Enter thread env count)) handles.now) d.old }
{
    tell(d, Event::Enter { thread, env, count }, handles)
}

// X: native returns to Java. The result is 0 where no object is returned.
pub fn weir_leave(d: &mut [u8], thread: u32, res: Handle) -> i32
    ensures value { result ≡ told (wrote (meant (Ok (Leave thread res)) no_handles) d.old) }
    ensures d_after { d.new ≡ left (meant (Ok (Leave thread res)) no_handles) d.old }
{
    tell(
        d,
        Event::Leave {
            thread,
            result: res,
        },
        &[0; 8],
    )
}

// C: C calls a JNI function. A place that the function does not use is 0, and so is n but for 19 and 26.
pub fn weir_call(
    d: &mut [u8],
    thread: u32,
    env: Handle,
    function: u32,
    a: Handle,
    b: Handle,
    c: Handle,
    n: i32,
) -> i32
    ensures value { result ≡ told (wrote (meant (Ok (Call thread env function a b c n)) no_handles) d.old) }
    ensures d_after { d.new ≡ left (meant (Ok (Call thread env function a b c n)) no_handles) d.old }
{
    tell(
        d,
        Event::Call {
            thread,
            env,
            function,
            a,
            b,
            c,
            n,
        },
        &[0; 8],
    )
}

// R: the function returns. What it gives is its status, or its result where it has no status; the other is 0.
pub fn weir_return(
    d: &mut [u8],
    thread: u32,
    function: u32,
    res: Handle,
    status: i32,
    pending: u32,
) -> i32
    ensures value { result ≡ told (wrote (meant (Ok (Return thread function res status pending)) no_handles) d.old) }
    ensures d_after { d.new ≡ left (meant (Ok (Return thread function res status pending)) no_handles) d.old }
{
    tell(
        d,
        Event::Return {
            thread,
            function,
            result: res,
            status,
            pending,
        },
        &[0; 8],
    )
}

// A: a thread that starts in C attaches itself.
pub fn weir_attach(d: &mut [u8], thread: u32, env: Handle) -> i32
    ensures value { result ≡ told (wrote (meant (Ok (Attach thread env)) no_handles) d.old) }
    ensures d_after { d.new ≡ left (meant (Ok (Attach thread env)) no_handles) d.old }
{
    tell(d, Event::Attach { thread, env }, &[0; 8])
}

// D: it detaches itself.
pub fn weir_detach(d: &mut [u8], thread: u32) -> i32
    ensures value { result ≡ told (wrote (meant (Ok (Detach thread)) no_handles) d.old) }
    ensures d_after { d.new ≡ left (meant (Ok (Detach thread)) no_handles) d.old }
{
    tell(d, Event::Detach { thread }, &[0; 8])
}

// K: declares a class.
pub fn weir_declare(d: &mut [u8], class: u32, superclass: u32) -> i32
    ensures value { result ≡ told (wrote (meant (Ok (Declare class superclass)) no_handles) d.old) }
    ensures d_after { d.new ≡ left (meant (Ok (Declare class superclass)) no_handles) d.old }
{
    tell(d, Event::Declare { class, superclass }, &[0; 8])
}

// O: states the class of a handle.
pub fn weir_state(d: &mut [u8], thread: u32, handle: Handle, class: u32) -> i32
    ensures value { result ≡ told (wrote (meant (Ok (State thread handle class)) no_handles) d.old) }
    ensures d_after { d.new ≡ left (meant (Ok (State thread handle class)) no_handles) d.old }
{
    tell(
        d,
        Event::State {
            thread,
            handle,
            class,
        },
        &[0; 8],
    )
}

// M: states what an identity is.
pub fn weir_identify(
    d: &mut [u8],
    identity: Handle,
    sort: u32,
    class: u32,
    isstatic: u32,
    isfinal: u32,
) -> i32
    ensures value { result ≡ told (wrote (meant (Ok (Identify identity sort class isstatic isfinal)) no_handles) d.old) }
    ensures d_after { d.new ≡ left (meant (Ok (Identify identity sort class isstatic isfinal)) no_handles) d.old }
{
    tell(
        d,
        Event::Identify {
            identity,
            sort,
            class,
            isstatic,
            isfinal,
        },
        &[0; 8],
    )
}

// Z: the end of the run.
pub fn weir_end(d: &mut [u8]) -> i32
    ensures value { result ≡ told (wrote (meant (Ok End) no_handles) d.old) }
    ensures d_after { d.new ≡ left (meant (Ok End) no_handles) d.old }
{
    tell(d, Event::End, &[0; 8])
}
