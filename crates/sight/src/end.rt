// Z: the counts that its findings give.
ghost use Rattle.std.specs.Prelude.{◌≡◌, List, ℕ};
ghost use Rattle.history.specs.Handles.{global_or_weak};
ghost use Rattle.history.specs.Acceptance.{everything};
ghost use Rattle.book.specs.Threads.{all_monitors};
ghost use Rattle.tables.specs.Tables.{handles_in, buffers_in};
ghost use Rattle.tables.specs.Looked.{table_of, with_all};
ghost use Rattle.sight.specs.Sights.{end_sight};

use tables::Looked;

#[derive(Clone, Copy)]
pub struct EndSight {
    pub buffers: u32,
    pub monitors: u32,
    pub handles: u32,
}

// How many buffers are outstanding.
fn buffers(pins: Looked) -> u32
    ensures { result ≡ buffers_in (table_of pins.entry) everything }
{
    rows::pins::alive(pins.rows, pins.marks) as u32
}

// How many monitors all threads have.
fn monitors(book: &[u64]) -> u32
    ensures { result ≡ all_monitors book.now }
{
    book::all_monitors(book) as u32
}

// How many globals and weaks are alive.
fn handles(references: Looked) -> u32
    ensures { result ≡ handles_in (table_of references.entry) global_or_weak }
{
    rows::references::globals(references.rows, references.marks) as u32
}

pub fn end(references: Looked, pins: Looked, book: &[u64]) -> EndSight
    ensures { (cs : List ℕ) → result ≡ end_sight (with_all (table_of references.entry) (table_of pins.entry) book.now cs) }
{
    let out = buffers(pins);
    let held = monitors(book);
    let alive = handles(references);
    EndSight {
        buffers: out,
        monitors: held,
        handles: alive,
    }
}
