// The lent thread book: a row of numbers for each thread, and row 0 for the trace itself. Every function takes any contents, any thread and a short book too.
#![tactic(auto)]

ghost use Rattle.std.specs.Prelude.{◌≡◌, ℕ, ◌-◌, ◌/◌, ◌<◌, ◌≤◌, min, max, false, length, Some};
ghost use Rattle.words.specs.Choice.{one};
ghost use Rattle.lines.specs.Line.{threads};
ghost use Rattle.history.specs.Items.{top_of};
ghost use Rattle.history.specs.Frames.{top_pushed, without_native};
ghost use Rattle.history.specs.Acceptance.{deepest};
ghost use Rattle.rows.specs.Scan.{how_many};
ghost use Rattle.rows.specs.Marks.{bit};
ghost use Rattle.book.specs.Layout.{width, whole, natives_at, cell, put};
ghost use Rattle.book.specs.Threads.{thread_in, is_pushed, top_capacity, marked_function, item_is, items_in, top_is, lines_in, closed_in, env_elsewhere, all_monitors};
ghost use Rattle.book.specs.Moves.{frame_pushed, native_left, frames_ended, frame_popped, capacity_raised, with_mark, item_pushed, item_popped, env_set, pending_set, monitor_added, monitor_taken, monitors_dropped, line_counted, closed_set, cleared};
ghost use Rattle.book.specs.Turns.{ByTurns};
ghost use Rattle.book.specs.Unfit.{overdone, overdone_in, unfit};

use lines::ranges::THREADS;
use words::Handle;

// An open item of a thread. A call has its function, and max(n,0) of its C.
#[derive(Clone, Copy)]
pub enum Item {
    Native,
    Attached,
    Call(u32, u32),
}

// The top of a thread's open items.
pub type Top = Option<Item>;

// Numbers to a row, and to a book.
const WIDTH: usize = 264;

pub const WHOLE: usize = 4488;

// The most open items, and frames, of a thread.
pub const DEEPEST: u64 = 64;

// The most lines, and monitors.
pub const MOST_LINES: u64 = 1000000;

// The columns of a row. The first two are of row 0 alone, the last four of open items.
// Numbers and no structs: C lends the book so, and `specs/Layout`, which may not change, says where each stands.
const LINES: usize = 0;

const CLOSED: usize = 1;

const ENV: usize = 2;

const PENDING: usize = 3;

const MONITORS: usize = 4;

const FRAMES: usize = 5;

const CAPACITIES: usize = 6;

const PUSHED: usize = 70;

const ITEMS: usize = 134;

const NATIVES: usize = 135;

const FUNCTIONS: usize = 136;

const ASKED: usize = 200;

// A call's two numbers are read as u32.
const ITEM_BOUND: u64 = 4294967296;

// The marks of every second item: lines open natives and calls by turns, and these are the calls' places.
const AT_CALLS: u64 = 12297829382473034410;

// The function of a native, and of an attached item, to push one. No `Item` is pushed: `push_item` takes any function, and may not narrow that.
pub const NO_FUNCTION: u32 = 0;

pub const ATTACHED_FUNCTION: u32 = 1;

// ---- numbers

// The number in row t and column j, 0 past the end.
fn number(book: &[u64], t: u32, j: usize) -> u64
    requires { j < width }
    ensures { result ≡ cell book.now t j }
{
    book.get(t as usize * WIDTH + j).copied().unwrap_or(0)
}

// Past the end nothing is written.
fn store(book: &mut [u64], t: u32, j: usize, v: u64)
    requires { j < width }
    ensures { book.new ≡ put book.old t j v }
{
    // Not by `get_mut`: tried, and once its borrow is over a proof knows the book's length alone, so `put` did not close.
    let at = t as usize * WIDTH + j;
    if at < book.len() {
        book[at] = v;
    }
}

// ---- a thread's env, pending exception and monitors

pub fn env_of(book: &[u64], t: u32) -> Handle
    ensures { result ≡ (thread_in book.now t).env }
{
    number(book, t, ENV)
}

// Another thread than t has this env.
pub fn env_elsewhere(book: &[u64], t: u32, env: Handle) -> bool
    ensures { result ≡ env_elsewhere book.now t env }
{
    (1..THREADS + 1).any(|s| (s != t) & (env_of(book, s) == env))
}

pub fn set_env(book: &mut [u64], t: u32, env: Handle)
    ensures { book.new ≡ env_set book.old t env }
{
    store(book, t, ENV, env);
}

pub fn pending_of(book: &[u64], t: u32) -> u64
    ensures { result ≡ (thread_in book.now t).pending }
{
    number(book, t, PENDING)
}

pub fn set_pending(book: &mut [u64], t: u32, pending: u64)
    ensures { book.new ≡ pending_set book.old t pending }
{
    store(book, t, PENDING, pending);
}

pub fn monitors_of(book: &[u64], t: u32) -> u64
    ensures { result ≡ (thread_in book.now t).monitors }
{
    number(book, t, MONITORS)
}

// Monitors of all threads.
pub fn all_monitors(book: &[u64]) -> u64
    ensures { result ≡ all_monitors book.now }
{
    (1..THREADS + 1)
        .map(|t| monitors_of(book, t).min(MOST_LINES))
        .sum()
}

pub fn add_monitor(book: &mut [u64], t: u32)
    ensures { book.new ≡ monitor_added book.old t }
{
    let m = monitors_of(book, t).min(MOST_LINES);
    store(book, t, MONITORS, m + 1);
}

// One fewer, if there is any.
pub fn take_monitor(book: &mut [u64], t: u32)
    ensures { book.new ≡ monitor_taken book.old t }
{
    let m = monitors_of(book, t).saturating_sub(1);
    store(book, t, MONITORS, m);
}

// D: none is left.
pub fn drop_monitors(book: &mut [u64], t: u32)
    ensures { book.new ≡ monitors_dropped book.old t }
{
    store(book, t, MONITORS, 0);
}

// ---- its frames

pub fn frames_of(book: &[u64], t: u32) -> u32
    ensures { (result ≡ length (thread_in book.now t).frames) × (result ≤ deepest) }
{
    number(book, t, FRAMES).min(DEEPEST) as u32
}

pub fn top_capacity(book: &[u64], t: u32) -> u64
    ensures { result ≡ top_capacity (thread_in book.now t).capacities }
{
    let Some(top) = frames_of(book, t).checked_sub(1) else {
        return 0;
    };
    number(book, t, CAPACITIES + top as usize)
}

// Frame i was pushed; frames are counted from 0 here.
fn frame_pushed(book: &[u64], t: u32, i: u32) -> bool
    requires { i < deepest }
    ensures { result ≡ is_pushed (cell book.now t) i }
{
    number(book, t, PUSHED + i as usize) != 0
}

pub fn top_pushed(book: &[u64], t: u32) -> bool
    ensures { result ≡ top_pushed (thread_in book.now t).frames }
{
    let Some(top) = frames_of(book, t).checked_sub(1) else {
        return false;
    };
    frame_pushed(book, t, top)
}

// How many frames X leaves.
pub fn frames_left(book: &[u64], t: u32) -> u32
    ensures { (result ≡ length (without_native (thread_in book.now t).frames)) × (result ≤ deepest) }
{
    for i in (0..frames_of(book, t)).rev() {
        if !frame_pushed(book, t, i) {
            return i;
        }
    }
    0
}

// A frame more, if there is room.
pub fn push_frame(book: &mut [u64], t: u32, capacity: u64, pushed: bool)
    ensures { book.new ≡ frame_pushed book.old t capacity pushed }
{
    let d = frames_of(book, t);
    if DEEPEST as u32 <= d {
        return;
    }
    let mark = u64::from(pushed);
    store(book, t, CAPACITIES + d as usize, capacity);
    store(book, t, PUSHED + d as usize, mark);
    store(book, t, FRAMES, d as u64 + 1);
}

// X: the frames of the top native end.
pub fn leave_native(book: &mut [u64], t: u32)
    ensures { book.new ≡ native_left book.old t }
{
    let d = frames_left(book, t);
    store(book, t, FRAMES, d as u64);
}

// D: all frames end.
pub fn end_frames(book: &mut [u64], t: u32)
    ensures { book.new ≡ frames_ended book.old t }
{
    store(book, t, FRAMES, 0);
}

// C of 20: the top frame ends, if it was pushed.
pub fn pop_frame(book: &mut [u64], t: u32)
    ensures { book.new ≡ frame_popped book.old t }
{
    let d = frames_of(book, t);
    let gone = u64::from(top_pushed(book, t));
    store(book, t, FRAMES, (d as u64).saturating_sub(gone));
}

// R of 26: the top frame's capacity is k at least.
pub fn raise_capacity(book: &mut [u64], t: u32, k: u64)
    ensures { book.new ≡ capacity_raised book.old t k }
{
    let Some(top) = frames_of(book, t).checked_sub(1) else {
        return;
    };
    let c = top_capacity(book, t).max(k);
    store(book, t, CAPACITIES + top as usize, c);
}

// ---- its open items: no other function touches their columns

pub fn items_of(book: &[u64], t: u32) -> u32
    ensures { (result ≡ length (items_in book.now t)) × (result ≤ deepest) }
{
    number(book, t, ITEMS).min(DEEPEST) as u32
}

// Item i is a native, or attached.
fn is_marked(marks: u64, i: u32) -> bool
    requires { i < deepest }
    ensures { result ≡ bit marks i }
{
    (marks >> i) % 2 == 1
}

fn item_is(marked: bool, f: u64, n: u64) -> Item
    ensures { top_is (Some result) ≡ Some (item_is marked f n) }
{
    if marked {
        if f == ATTACHED_FUNCTION as u64 {
            return Item::Attached;
        }
        return Item::Native;
    }
    Item::Call((f % ITEM_BOUND) as u32, (n % ITEM_BOUND) as u32)
}

pub fn top_item(book: &[u64], t: u32) -> Top
    ensures { top_is result ≡ top_of (items_in book.now t) }
{
    let top = items_of(book, t).checked_sub(1)?;
    Some(item_is(
        is_marked(number(book, t, NATIVES), top),
        number(book, t, FUNCTIONS + top as usize),
        number(book, t, ASKED + top as usize),
    ))
}

// An item of this function is marked.
fn marked_function(f: u32) -> bool
    ensures { result ≡ marked_function f }
{
    (f == NO_FUNCTION) | (f == ATTACHED_FUNCTION)
}

// The marks with item i's set, or cleared.
fn with_mark(marks: u64, i: u32, native: bool) -> u64
    requires { i < deepest }
    ensures { result ≡ with_mark marks i native }
{
    if native {
        return marks | (1 << i);
    }
    marks & !(1 << i)
}

// An item more, if there is room.
pub fn push_item(book: &mut [u64], t: u32, f: u32, n: u32)
    ensures { book.new ≡ item_pushed book.old t f n }
{
    let d = items_of(book, t);
    if DEEPEST as u32 <= d {
        return;
    }
    let marks = with_mark(number(book, t, NATIVES), d, marked_function(f));
    store(book, t, FUNCTIONS + d as usize, f as u64);
    store(book, t, ASKED + d as usize, n as u64);
    store(book, t, ITEMS, d as u64 + 1);
    store(book, t, NATIVES, marks);
}

// The top item ends.
pub fn pop_item(book: &mut [u64], t: u32)
    ensures { book.new ≡ item_popped book.old t }
{
    let d = items_of(book, t);
    store(book, t, ITEMS, (d as u64).saturating_sub(1));
}

// ---- the trace and the whole book

pub fn lines_of(book: &[u64]) -> u64
    ensures { result ≡ lines_in book.now }
{
    number(book, 0, LINES)
}

pub fn count_line(book: &mut [u64])
    ensures { book.new ≡ line_counted book.old }
{
    let n = lines_of(book).min(MOST_LINES);
    store(book, 0, LINES, n + 1);
}

pub fn is_closed(book: &[u64]) -> bool
    ensures { result ≡ closed_in book.now }
{
    number(book, 0, CLOSED) != 0
}

// Z closes the trace.
pub fn set_closed(book: &mut [u64])
    ensures { book.new ≡ closed_set book.old }
{
    store(book, 0, CLOSED, 1);
}

// How many of the lowest n items are natives.
fn natives_below(marks: u64, n: u32) -> u64
    requires { n ≤ deepest }
    ensures { result ≡ how_many (bit marks) n }
{
    (0..n).filter(|i| is_marked(marks, *i)).count() as u64
}

fn overdone(items: u64, frames: u64, natives: u64, monitors: u64) -> bool
    ensures { result ≡ overdone items frames natives monitors }
{
    (DEEPEST < items)
        | (DEEPEST < frames)
        | (frames < natives)
        | ((0 < items) & (frames == 0))
        | (MOST_LINES < monitors)
}

// A thread of these numbers may be overdone. No native is counted: by turns with calls, they are half of the items.
fn doubtful(items: u64, frames: u64, monitors: u64) -> bool
    ensures { result ≡ false → (natives : ℕ) → natives ≤ items - items / 2 → overdone items frames natives monitors ≡ false }
{
    (DEEPEST < items.max(frames)) | (frames.wrapping_add(frames) < items) | (MOST_LINES < monitors)
}

// A thread of these numbers is overdone. Natives are counted only where it is in doubt, or one stands in a call's place.
fn overdone_by(items: u64, frames: u64, marks: u64, monitors: u64) -> bool
    ensures { result ≡ overdone items frames (how_many (bit marks) (min items deepest)) monitors }
{
    if doubtful(items, frames, monitors) | (marks & AT_CALLS != 0) {
        let natives = natives_below(marks, items.min(DEEPEST) as u32);
        return overdone(items, frames, natives, monitors);
    }
    false
}

// Thread t of any book.
pub fn is_overdone(book: &[u64], t: u32) -> bool
    ensures { result ≡ overdone_in book.now t }
{
    overdone_by(
        number(book, t, ITEMS),
        number(book, t, FRAMES),
        number(book, t, NATIVES),
        number(book, t, MONITORS),
    )
}

// A thread of a book that is not short, or its line count.
fn some_overdone(book: &[u64]) -> bool
    requires { whole ≤ length book.now }
    ensures { result ≡ unfit book.now }
{
    (MOST_LINES < lines_of(book)) | (1..THREADS + 1).any(|t| is_overdone(book, t))
}

// Thread t of a book that is not short may be overdone.
fn in_doubt(book: &[u64], t: u32) -> bool
    requires { (t ≤ threads) × (whole ≤ length book.now) }
    ensures { result ≡ false → ByTurns (cell book.now t natives_at) → overdone_in book.now t ≡ false }
{
    let row = t as usize * WIDTH;
    doubtful(book[row + ITEMS], book[row + FRAMES], book[row + MONITORS])
}

// Refusal 8. Nothing ends the first look early: the common book, which lines have left, has no thread in doubt.
pub fn unfit(book: &[u64]) -> bool
    ensures { result ≡ unfit book.now }
{
    if book.len() < WHOLE {
        return true;
    }
    let mut doubt = MOST_LINES < book[LINES];
    let mut marks = 0;
    for t in 1..THREADS + 1 {
        doubt |= in_doubt(book, t);
        marks |= book[t as usize * WIDTH + NATIVES];
    }
    if doubt | (marks & AT_CALLS != 0) {
        return some_overdone(book);
    }
    false
}

// A start: all numbers are 0.
pub fn clear(book: &mut [u64])
    ensures { book.new ≡ cleared book.old }
{
    book.fill(0);
}
