// A line that was read: told by its event, and where it is accepted its thread's open items are moved.
ghost use Rattle.std.specs.Prelude.{◌≡◌, suc, ◌<◌, ◌≤◌, length};
ghost use Rattle.lines.specs.Line.{most_handles};
ghost use Rattle.history.specs.Items.{top_of};
ghost use Rattle.history.specs.Replies.{most_lines};
ghost use Rattle.book.specs.Threads.{lines_in, items_in, top_is};
ghost use Rattle.tables.specs.Lent.{tables_of, Same, Led};
ghost use Rattle.events.specs.Event.{slots_named};
ghost use Rattle.events.specs.Outcome.{leaves};
ghost use Rattle.events.specs.Heard.{event_outcome, said_outcome};

use crate::{attach, call, declare, detach, end, enter, identify, items, leave, returns, state};
use answers::Answer;
use book::Top;
use lines::Event;
use tables::Lent;
use words::Handle;

// The number of the next accepted line. It and the next two read through `&Lent`: after a read of a field through `&mut Lent` a proof knows no more what it holds.
fn next_number(lent: &Lent) -> u32
    ensures { lines_in lent.now.book.now < most_lines → result ≡ suc (lines_in lent.now.book.now) }
{
    book::lines_of(lent.book).min(book::MOST_LINES) as u32 + 1
}

fn top_item(lent: &Lent, t: u32) -> Top
    ensures { top_is result ≡ top_of (items_in lent.now.book.now t) }
{
    book::top_item(lent.book, t)
}

fn items_of(lent: &Lent, t: u32) -> u32
    ensures { result ≡ length (items_in lent.now.book.now t) }
{
    book::items_of(lent.book, t)
}

// Line number `line`, that was read; `top` is on top of its thread's `many` open items, which are left as they are.
fn by_event(
    lent: &mut Lent,
    event: Event,
    handles: [Handle; 8],
    top: Top,
    many: u32,
    line: u32,
) -> Answer
    ensures outcome { Led lent.old → slots_named event ≤ most_handles → leaves result (tables_of lent.new) ≡ event_outcome line event handles (top_is top) many (tables_of lent.old) }
    ensures same { Same lent.new lent.old }
    ensures led { Led lent.old → Led lent.new }
{
    match event {
        Event::Enter { thread, env, count } => {
            let hs = &handles[..handles.len().min(count as usize)];
            enter::enter(lent, top, many, line, thread, env, hs)
        }
        Event::Leave { thread, result } => leave::leave(lent, top, line, thread, result),
        Event::Call {
            thread,
            env,
            function,
            a,
            b,
            c,
            ..
        } => call::call(lent, top, many, line, thread, env, function, a, b, c),
        Event::Return {
            thread,
            function,
            result,
            status,
            pending,
        } => returns::returns(lent, top, line, thread, function, result, status, pending),
        Event::Attach { thread, env } => { attach::attach(lent, top, many, line, thread, env) }
        Event::Detach { thread } => detach::detach(lent, top, line, thread),
        Event::Declare { class, superclass } => declare::declare(lent, class, superclass),
        Event::State {
            thread,
            handle,
            class,
        } => state::state(lent, thread, handle, class),
        Event::Identify {
            identity,
            sort,
            class,
            isstatic,
            isfinal,
        } => identify::identify(lent, identity, sort, class, isstatic, isfinal),
        Event::End => end::end(lent, line),
    }
}

// A line that was read, over rows with their guides, or with none.
pub fn on_event(lent: &mut Lent, event: Event, handles: [Handle; 8]) -> Answer
    ensures outcome { Led lent.old → lines_in lent.old.book.now < most_lines → slots_named event ≤ most_handles → leaves result (tables_of lent.new) ≡ said_outcome event handles (tables_of lent.old) }
    ensures same { Same lent.new lent.old }
    ensures led { Led lent.old → Led lent.new }
{
    let t = items::thread_of(Ok(event));
    let line = next_number(lent);
    let top = top_item(lent, t);
    let many = items_of(lent, t);
    let found = by_event(lent, event, handles, top, many, line)?;
    items::move_item(lent.book, Ok(event));
    Ok(found)
}
