// D: what its findings look at.
ghost use Rattle.std.specs.Prelude.{◌≡◌, List, ℕ};
ghost use Rattle.rows.specs.Table.{Table};
ghost use Rattle.tables.specs.Looked.{table_of, with_all, PinsLed};
ghost use Rattle.sight.specs.Sights.{detach_sight};

use crate::seen::in_critical;
use tables::Looked;

// The thread has a critical buffer outstanding; how many monitors it has.
#[derive(Clone, Copy)]
pub struct DetachSight {
    pub critical: bool,
    pub monitors: u64,
}

pub fn detach(pins: Looked, book: &[u64], t: u32) -> DetachSight
    ensures { PinsLed pins.entry → (R : Table) (cs : List ℕ) → result ≡ detach_sight (with_all R (table_of pins.entry) book.now cs) t }
{
    let critical = in_critical(pins, t);
    let monitors = book::monitors_of(book, t);
    DetachSight { critical, monitors }
}
