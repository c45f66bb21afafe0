// What stands at a place: whether it is alive or outstanding, the row that was found for it, and whether its stated class is right there; an identity, whether
// it is stated as it is wanted, and may be taken.
ghost use Rattle.std.specs.Prelude.{◌≡◌, List, ℕ};
ghost use Rattle.words.specs.Choice.{if_true◌then◌else◌};
ghost use Rattle.facts.specs.Classes.{no_class};
ghost use Rattle.rows.specs.Table.{Table};
ghost use Rattle.tables.specs.Looked.{table_of, with_all, RowsLed, PinsLed};
ghost use Rattle.sight.specs.Spots.{nowhere, local_spot, shared_spot, handle_spot, buffer_spot, identity_spot, place_spot};

use crate::seen::{pin_row_of, row_of};
use facts::Place;
use facts::classes::NO_CLASS;
use facts::handles::{IDENTITY, KINDS, LOCAL};
use facts::identities::YES;
use rows::Number;
use tables::Looked;
use words::Handle;

// `row` beside `there`, and no Option: `act`'s functions take a row of any caller, there or not, so each would be handed a made-up one for None.
#[derive(Clone, Copy)]
pub struct Spot {
    pub there: bool,
    pub row: usize,
    pub fits: bool,
}

// Nothing was looked up.
fn nowhere() -> Spot
    ensures { result ≡ nowhere }
{
    Spot {
        there: false,
        row: 0,
        fits: true,
    }
}

// A local of thread t, or a global or weak. Thread 0 has no locals: its rows are those of globals and weaks.
pub(crate) fn looked_up(references: Looked, local: bool, t: u32, h: Handle) -> Spot
    ensures { RowsLed references.entry → (P : Table) (b cs : List ℕ) → result ≡ (if_true local then local_spot (with_all (table_of references.entry) P b cs) t h else shared_spot (with_all (table_of references.entry) P b cs) h) }
{
    let owner = if local { t } else { 0 };
    let row = row_of(references, owner, h);
    let room = rows::references::room(references.rows, references.marks);
    Spot {
        there: (!local | (t != 0)) & (row < room),
        row,
        fits: true,
    }
}

// A handle of any kind where no class is fixed; null and identities are not looked up.
pub(crate) fn handle(references: Looked, t: u32, h: Handle) -> Spot
    ensures { RowsLed references.entry → (P : Table) (b cs : List ℕ) → result ≡ handle_spot no_class (with_all (table_of references.entry) P b cs) t h }
{
    let kind = h % KINDS;
    if kind == IDENTITY {
        return nowhere();
    }
    looked_up(references, kind == LOCAL, t, h)
}

// A handle where class `fixed` is fixed, or none: what is stated of it is looked at where one is, and the handle is there.
fn judged(references: Looked, classes: &[Number], fixed: u32, t: u32, h: Handle) -> Spot
    ensures { RowsLed references.entry → (P : Table) (b : List ℕ) → result ≡ handle_spot fixed (with_all (table_of references.entry) P b classes.now) t h }
{
    let at = handle(references, t, h);
    if (fixed == NO_CLASS) | !at.there {
        return at;
    }
    let stated = rows::references::class_at(references.rows, references.marks, at.row);
    let fits = classes::fits(classes, fixed, stated);
    Spot { fits, ..at }
}

// The buffer that function f of the thread releases.
fn buffer(pins: Looked, t: u32, f: u32, b: Handle) -> Spot
    ensures { PinsLed pins.entry → (R : Table) (d cs : List ℕ) → result ≡ buffer_spot (with_all R (table_of pins.entry) d cs) t f b }
{
    let k = facts::family(f);
    let room = rows::pins::room(pins.rows, pins.marks);
    if facts::is_critical(k) {
        let own = pin_row_of(pins, t, k, b);
        return Spot {
            there: (t != 0) & (own < room),
            row: own,
            fits: true,
        };
    }
    let row = pin_row_of(pins, 0, k, b);
    Spot {
        there: row < room,
        row,
        fits: true,
    }
}

// Identity x, handed to function f.
fn identity(classes: &[Number], f: u32, x: Handle) -> Spot
    ensures { (R P : Table) (b : List ℕ) → result ≡ identity_spot (with_all R P b classes.now) f x }
{
    let stated = classes::identities::stated(classes, x);
    let wanted = facts::identities::wanted_of(f);
    let there = facts::identities::suits(wanted, stated.sort, stated.isstatic);
    let writes = facts::identities::writes_field(f);
    Spot {
        there,
        row: 0,
        fits: !(writes & (stated.isfinal == YES)),
    }
}

// The value h at a place of function f, called by thread t, where class `fixed` is fixed, or none.
pub(crate) fn place(
    references: Looked,
    pins: Looked,
    classes: &[Number],
    p: Place,
    fixed: u32,
    t: u32,
    f: u32,
    h: Handle,
) -> Spot
    ensures { RowsLed references.entry × PinsLed pins.entry → (b : List ℕ) → result ≡ place_spot fixed p (with_all (table_of references.entry) (table_of pins.entry) b classes.now) t f h }
{
    if facts::results::is_handle_place(p) {
        return judged(references, classes, fixed, t, h);
    }
    if facts::results::is_buffer_place(p) {
        return buffer(pins, t, f, h);
    }
    if facts::results::is_identity_place(p) {
        return identity(classes, f, h);
    }
    nowhere()
}
