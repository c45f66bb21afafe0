// M states what an identity is, whose place is told.
ghost use Rattle.std.specs.Prelude.{◌≡◌};
ghost use Rattle.tables.specs.Lent.{tables_of, Same, Led};
ghost use Rattle.act.specs.Statements.{identified};

use rows::Number;
use tables::Lent;
use words::Handle;

// The identity stands at place `place`, or is put there: the caller looked it up.
pub fn identify(lent: &mut Lent, place: usize, x: Handle, sort: u32, isstatic: u32, isfinal: u32)
    ensures left { tables_of lent.new ≡ identified (tables_of lent.old) place x sort isstatic isfinal }
    ensures same { Same lent.new lent.old }
    ensures led { Led lent.old → Led lent.new }
{
    classes::identities::put(
        lent.classes,
        place,
        x,
        sort as Number,
        isstatic as Number,
        isfinal as Number,
    );
    book::count_line(lent.book);
}
