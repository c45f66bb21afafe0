// The library recorder for C: its functions under the same names, each with the same clauses.
#![tactic(auto)]

ghost use Rattle.std.specs.Prelude.{◌≡◌, Ok};
ghost use Rattle.lines.specs.declared.Event.TheVariants.{Enter, Leave, Call, Return, Attach, Detach, Declare, State, Identify, End};
ghost use Rattle.lines.specs.Events.{meant, wrote, left};
ghost use Rattle.recorder.specs.Told.{told, no_handles};

use words::Handle;

#[unsafe(no_mangle)]
pub extern "C" fn weir_enter(
    d: &mut [u8],
    thread: u32,
    env: Handle,
    count: u32,
    handles: &[Handle; 8],
) -> i32
    ensures value { result ≡ told (wrote (meant (Ok (Enter thread env count)) handles.now) d.old) }
    ensures d_after { d.new ≡ left (meant (Ok (Enter thread env count)) handles.now) d.old }
{
    recorder::weir_enter(d, thread, env, count, handles)
}

#[unsafe(no_mangle)]
pub extern "C" fn weir_leave(d: &mut [u8], thread: u32, res: Handle) -> i32
    ensures value { result ≡ told (wrote (meant (Ok (Leave thread res)) no_handles) d.old) }
    ensures d_after { d.new ≡ left (meant (Ok (Leave thread res)) no_handles) d.old }
{
    recorder::weir_leave(d, thread, res)
}

#[unsafe(no_mangle)]
pub extern "C" fn weir_call(
    d: &mut [u8],
    thread: u32,
    env: Handle,
    function: u32,
    a: Handle,
    b: Handle,
    c: Handle,
    n: i32,
) -> i32
    ensures value { result ≡ told (wrote (meant (Ok (Call thread env function a b c n)) no_handles) d.old) }
    ensures d_after { d.new ≡ left (meant (Ok (Call thread env function a b c n)) no_handles) d.old }
{
    recorder::weir_call(d, thread, env, function, a, b, c, n)
}

#[unsafe(no_mangle)]
pub extern "C" fn weir_return(
    d: &mut [u8],
    thread: u32,
    function: u32,
    res: Handle,
    status: i32,
    pending: u32,
) -> i32
    ensures value { result ≡ told (wrote (meant (Ok (Return thread function res status pending)) no_handles) d.old) }
    ensures d_after { d.new ≡ left (meant (Ok (Return thread function res status pending)) no_handles) d.old }
{
    recorder::weir_return(d, thread, function, res, status, pending)
}

#[unsafe(no_mangle)]
pub extern "C" fn weir_attach(d: &mut [u8], thread: u32, env: Handle) -> i32
    ensures value { result ≡ told (wrote (meant (Ok (Attach thread env)) no_handles) d.old) }
    ensures d_after { d.new ≡ left (meant (Ok (Attach thread env)) no_handles) d.old }
{
    recorder::weir_attach(d, thread, env)
}

#[unsafe(no_mangle)]
pub extern "C" fn weir_detach(d: &mut [u8], thread: u32) -> i32
    ensures value { result ≡ told (wrote (meant (Ok (Detach thread)) no_handles) d.old) }
    ensures d_after { d.new ≡ left (meant (Ok (Detach thread)) no_handles) d.old }
{
    recorder::weir_detach(d, thread)
}

#[unsafe(no_mangle)]
pub extern "C" fn weir_declare(d: &mut [u8], class: u32, superclass: u32) -> i32
    ensures value { result ≡ told (wrote (meant (Ok (Declare class superclass)) no_handles) d.old) }
    ensures d_after { d.new ≡ left (meant (Ok (Declare class superclass)) no_handles) d.old }
{
    recorder::weir_declare(d, class, superclass)
}

#[unsafe(no_mangle)]
pub extern "C" fn weir_state(d: &mut [u8], thread: u32, handle: Handle, class: u32) -> i32
    ensures value { result ≡ told (wrote (meant (Ok (State thread handle class)) no_handles) d.old) }
    ensures d_after { d.new ≡ left (meant (Ok (State thread handle class)) no_handles) d.old }
{
    recorder::weir_state(d, thread, handle, class)
}

#[unsafe(no_mangle)]
pub extern "C" fn weir_identify(
    d: &mut [u8],
    identity: Handle,
    sort: u32,
    class: u32,
    isstatic: u32,
    isfinal: u32,
) -> i32
    ensures value { result ≡ told (wrote (meant (Ok (Identify identity sort class isstatic isfinal)) no_handles) d.old) }
    ensures d_after { d.new ≡ left (meant (Ok (Identify identity sort class isstatic isfinal)) no_handles) d.old }
{
    recorder::weir_identify(d, identity, sort, class, isstatic, isfinal)
}

#[unsafe(no_mangle)]
pub extern "C" fn weir_end(d: &mut [u8]) -> i32
    ensures value { result ≡ told (wrote (meant (Ok End) no_handles) d.old) }
    ensures d_after { d.new ≡ left (meant (Ok End) no_handles) d.old }
{
    recorder::weir_end(d)
}
