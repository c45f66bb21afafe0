// The open items of a line's thread: whose they are, and how an accepted line moves them. What was refused is of no thread and moves none.
ghost use Rattle.std.specs.Prelude.{◌≡◌, List, ℕ};
ghost use Rattle.lines.specs.Line.{above_zero};
ghost use Rattle.events.specs.Event.{read_as, read_from, thread_named, thread_read, items_after};

use book::{ATTACHED_FUNCTION, NO_FUNCTION};
use lines::Event;
use lines::refusal::Refusal;

fn thread_in(event: Event) -> u32
    ensures { result ≡ thread_named event }
{
    match event {
        Event::Enter { thread, .. } => thread,
        Event::Leave { thread, .. } => thread,
        Event::Call { thread, .. } => thread,
        Event::Return { thread, .. } => thread,
        Event::Attach { thread, .. } => thread,
        Event::Detach { thread } => thread,
        Event::Declare { .. } => 0,
        Event::State { .. } => 0,
        Event::Identify { .. } => 0,
        Event::End => 0,
    }
}

// The thread whose open items it is of; 0 for none.
pub fn thread_of(event: Result<Event, Refusal>) -> u32
    ensures { result ≡ thread_read event }
{
    match event {
        Ok(event) => thread_in(event),
        Err(_) => 0,
    }
}

// Negative capacity counts as zero.
fn above_zero(n: i32) -> u32
    ensures { result ≡ above_zero n }
{
    u32::try_from(n).unwrap_or(0)
}

// N opens a native, C a call and A an attached item; X, R and D close what is on top.
fn move_by(book: &mut [u64], event: Event)
    ensures { (hs : List ℕ) → book.new ≡ items_after (read_as event hs) book.old }
{
    match event {
        Event::Enter { thread, .. } => book::push_item(book, thread, NO_FUNCTION, 0),
        Event::Leave { thread, .. } => book::pop_item(book, thread),
        Event::Call {
            thread,
            function,
            n,
            ..
        } => book::push_item(book, thread, function, above_zero(n)),
        Event::Return { thread, .. } => book::pop_item(book, thread),
        Event::Attach { thread, .. } => book::push_item(book, thread, ATTACHED_FUNCTION, 0),
        Event::Detach { thread } => book::pop_item(book, thread),
        Event::Declare { .. } => {}
        Event::State { .. } => {}
        Event::Identify { .. } => {}
        Event::End => {}
    }
}

pub fn move_item(book: &mut [u64], event: Result<Event, Refusal>)
    ensures { (hs : List ℕ) → book.new ≡ items_after (read_from event hs) book.old }
{
    if let Ok(event) = event {
        move_by(book, event);
    }
}
