// K: what its refusals look at.
ghost use Rattle.std.specs.Prelude.{◌≡◌, List, ℕ};
ghost use Rattle.rows.specs.Table.{Table};
ghost use Rattle.tables.specs.Looked.{with_all};
ghost use Rattle.sight.specs.Sights.{declare_sight};

use rows::Number;

// The class is declared or reserved already, and so is its super.
#[derive(Clone, Copy)]
pub struct DeclareSight {
    pub known: bool,
    pub under: bool,
}

pub fn declare(classes: &[Number], c: u32, superclass: u32) -> DeclareSight
    ensures { (R P : Table) (b : List ℕ) → result ≡ declare_sight (with_all R P b classes.now) c superclass }
{
    let known = classes::is_known(classes, c);
    let under = classes::is_known(classes, superclass);
    DeclareSight { known, under }
}
