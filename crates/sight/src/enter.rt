// N: what its refusals look at.
ghost use Rattle.std.specs.Prelude.{◌≡◌, List, ℕ};
ghost use Rattle.rows.specs.Table.{Table};
ghost use Rattle.tables.specs.Looked.{table_of, with_all, RowsLed};
ghost use Rattle.sight.specs.Sights.{some_alive, enter_sight};

use crate::seen::used_rows;
use crate::spot::looked_up;
use tables::Looked;
use words::Handle;

// The thread's env, whether another thread has this one, whether a handle named is alive, how many rows are free, and the thread's frames.
#[derive(Clone, Copy)]
pub struct EnterSight {
    pub env: Handle,
    pub elsewhere: bool,
    pub alive: bool,
    pub free: usize,
    pub frames: u32,
}

fn some_alive(references: Looked, t: u32, hs: &[Handle]) -> bool
    ensures { RowsLed references.entry → result ≡ some_alive (table_of references.entry) t hs.now }
{
    hs.iter().any(|h| looked_up(references, true, t, *h).there)
}

pub fn enter(references: Looked, book: &[u64], t: u32, env: Handle, hs: &[Handle]) -> EnterSight
    ensures { RowsLed references.entry → (P : Table) (cs : List ℕ) → result ≡ enter_sight (with_all (table_of references.entry) P book.now cs) t env hs.now }
{
    let own = book::env_of(book, t);
    let elsewhere = book::env_elsewhere(book, t, env);
    let alive = some_alive(references, t, hs);
    let room = rows::references::room(references.rows, references.marks);
    let used = used_rows(references);
    let frames = book::frames_of(book, t);
    EnterSight {
        env: own,
        elsewhere,
        alive,
        free: room.saturating_sub(used),
        frames,
    }
}
