// X: what its findings look at.
ghost use Rattle.std.specs.Prelude.{◌≡◌, List, ℕ};
ghost use Rattle.tables.specs.Looked.{table_of, with_all, RowsLed, PinsLed};
ghost use Rattle.sight.specs.Sights.{leave_sight};

use crate::seen::in_critical;
use crate::spot::{Spot, handle};
use tables::Looked;
use words::Handle;

#[derive(Clone, Copy)]
pub struct LeaveSight {
    pub critical: bool,
    pub result: Spot,
}

pub fn leave(references: Looked, pins: Looked, t: u32, res: Handle) -> LeaveSight
    ensures { RowsLed references.entry × PinsLed pins.entry → (b cs : List ℕ) → result ≡ leave_sight (with_all (table_of references.entry) (table_of pins.entry) b cs) t res }
{
    let critical = in_critical(pins, t);
    let at = handle(references, t, res);
    LeaveSight {
        critical,
        result: at,
    }
}
