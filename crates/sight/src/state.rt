// O: what its refusals look at, and the row of the handle.
ghost use Rattle.std.specs.Prelude.{◌≡◌, List, ℕ};
ghost use Rattle.rows.specs.Table.{Table};
ghost use Rattle.tables.specs.Looked.{table_of, with_all, RowsLed};
ghost use Rattle.sight.specs.Sights.{state_sight};

use crate::spot::handle;
use rows::Number;
use tables::Looked;
use words::Handle;

// The class is declared or reserved, the handle is alive for the thread, and its row.
// `row` beside `alive`, and no Option: `act::state` takes a row of any caller, so it would be handed a made-up one for None.
#[derive(Clone, Copy)]
pub struct StateSight {
    pub known: bool,
    pub alive: bool,
    pub row: usize,
}

pub fn state(references: Looked, classes: &[Number], t: u32, h: Handle, c: u32) -> StateSight
    ensures { RowsLed references.entry → (P : Table) (b : List ℕ) → result ≡ state_sight (with_all (table_of references.entry) P b classes.now) t h c }
{
    let known = classes::is_known(classes, c);
    let at = handle(references, t, h);
    StateSight {
        known,
        alive: at.there,
        row: at.row,
    }
}
