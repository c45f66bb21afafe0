// The identities in the lent class table, behind its classes: four numbers to a place, identity (0 where the place is free), sort, static, final.
ghost use Rattle.std.specs.Prelude.{◌≡◌, ◌-◌, ◌≤◌};
ghost use Rattle.history.specs.Identities.{not_stated};
ghost use Rattle.classes.specs.Identities.{identity_room, before, first_from, is_for, place_of, identity_in, with_identity};

use facts::handles::KINDS;
use history::Identity;
use lines::ranges::CLASSES;
use rows::Number;
use words::Handle;

// So many to a place.
pub const NUMBERS: usize = 4;

// Where the places begin.
const FROM: usize = CLASSES as usize;

// As many places as there are numbers for.
pub fn room(table: &[Number]) -> usize
    ensures { result ≡ identity_room table.now }
{
    if table.len() < FROM {
        return 0;
    }
    (table.len() - FROM) / NUMBERS
}

// The first place from `from` on, before `to`, that is free or has identity x.
fn first(table: &[Number], x: Handle, from: usize, to: usize) -> Option<usize>
    requires { (from ≤ to) × (to ≤ identity_room table.now) }
    ensures { result ≡ before to (first_from (is_for table.now x) from (to - from)) }
{
    for i in from..to {
        let at = table[FROM + i * NUMBERS];
        if (at == 0) | (at == x) {
            return Some(i);
        }
    }
    None
}

// Where identity x stands, or can be put: looked for from its own place to the last, then from the first; the room where it is nowhere and no place is free.
// The room and no Option: specs/Identities.antt has it so.
pub fn place_of(table: &[Number], x: Handle) -> usize
    ensures { result ≡ place_of table.now x }
{
    let many = room(table);
    if many == 0 {
        return 0;
    }
    let own = (x / KINDS) as usize % many;
    match first(table, x, own, many) {
        Some(i) => i,
        None => first(table, x, 0, own).unwrap_or(many),
    }
}

// What is stated of identity x.
pub fn stated(table: &[Number], x: Handle) -> Identity
    ensures { result ≡ identity_in table.now x }
{
    let i = place_of(table, x);
    if i < room(table) {
        let at = FROM + i * NUMBERS;
        if table[at] != 0 {
            return Identity {
                sort: table[at + 1],
                isstatic: table[at + 2],
                isfinal: table[at + 3],
            };
        }
    }
    // Sort 0 and no Option where nothing is stated: `history::not_stated`, a definition that may not change, says it so.
    Identity {
        sort: 0,
        isstatic: 0,
        isfinal: 0,
    }
}

// Identity x is stated so at place i; nothing where the table has no such place.
pub fn put(
    table: &mut [Number],
    i: usize,
    x: Handle,
    sort: Number,
    isstatic: Number,
    isfinal: Number,
)
    ensures { table.new ≡ with_identity table.old i x sort isstatic isfinal }
{
    if i < room(table) {
        let at = FROM + i * NUMBERS;
        table[at] = x;
        table[at + 1] = sort;
        table[at + 2] = isstatic;
        table[at + 3] = isfinal;
    }
}
