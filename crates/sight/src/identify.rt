// M: what its refusals look at, and the place of the identity.
ghost use Rattle.std.specs.Prelude.{◌≡◌, List, ℕ};
ghost use Rattle.rows.specs.Table.{Table};
ghost use Rattle.tables.specs.Looked.{with_all};
ghost use Rattle.sight.specs.Sights.{identify_sight};

use rows::Number;
use words::Handle;

// The class is declared or reserved, the place where the identity stands or can be put, and whether that is one of the room.
// `place` beside `fits`, and no Option: `act::identify` takes a place of any caller, so it would be handed a made-up one for None.
#[derive(Clone, Copy)]
pub struct IdentifySight {
    pub known: bool,
    pub place: usize,
    pub fits: bool,
}

pub fn identify(classes: &[Number], x: Handle, c: u32) -> IdentifySight
    ensures { (R P : Table) (b : List ℕ) → result ≡ identify_sight (with_all R P b classes.now) x c }
{
    let known = classes::is_known(classes, c);
    let place = classes::identities::place_of(classes, x);
    let room = classes::identities::room(classes);
    IdentifySight {
        known,
        place,
        fits: place < room,
    }
}
