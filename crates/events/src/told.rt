// What a line is told of the lent tables where they travel as one.
ghost use Rattle.std.specs.Prelude.{◌≡◌};
ghost use Rattle.tables.specs.Lent.{tables_of, Led};
ghost use Rattle.tables.specs.Looked.{table_of};
ghost use Rattle.sight.specs.Sights.{call_sight, leave_sight, enter_sight, detach_sight, end_sight, declare_sight, state_sight, identify_sight};
ghost use Rattle.sight.specs.Returns.{return_sight};

use sight::call::CallSight;
use sight::declare::DeclareSight;
use sight::detach::DetachSight;
use sight::end::EndSight;
use sight::enter::EnterSight;
use sight::identify::IdentifySight;
use sight::leave::LeaveSight;
use sight::returns::ReturnSight;
use sight::state::StateSight;
use tables::{Lent, Looked};
use words::Handle;

fn references<'a>(lent: &'a Lent) -> Looked<'a>
    ensures { (table_of result ≡ (tables_of lent.now).references) × (result.guide.now ≡ lent.now.guide.now) }
{
    Looked {
        rows: lent.rows,
        marks: lent.marks,
        guide: lent.guide,
    }
}

fn pins<'a>(lent: &'a Lent) -> Looked<'a>
    ensures { (table_of result ≡ (tables_of lent.now).pins) × (result.guide.now ≡ lent.now.pinguide.now) }
{
    Looked {
        rows: lent.pins,
        marks: lent.pinmarks,
        guide: lent.pinguide,
    }
}

pub(crate) fn call(lent: &Lent, t: u32, f: u32, a: Handle, b: Handle, c: Handle) -> CallSight
    ensures { Led lent.now → result ≡ call_sight (tables_of lent.now) t f a b c }
{
    sight::call::call(
        references(lent),
        pins(lent),
        lent.book,
        lent.classes,
        t,
        f,
        a,
        b,
        c,
    )
}

pub(crate) fn leave(lent: &Lent, t: u32, res: Handle) -> LeaveSight
    ensures { Led lent.now → result ≡ leave_sight (tables_of lent.now) t res }
{
    sight::leave::leave(references(lent), pins(lent), t, res)
}

pub(crate) fn returns(lent: &Lent, t: u32, f: u32, h: Handle) -> ReturnSight
    ensures { Led lent.now → result ≡ return_sight (tables_of lent.now) t f h }
{
    sight::returns::returns(references(lent), pins(lent), lent.book, t, f, h)
}

pub(crate) fn enter(lent: &Lent, t: u32, env: Handle, hs: &[Handle]) -> EnterSight
    ensures { Led lent.now → result ≡ enter_sight (tables_of lent.now) t env hs.now }
{
    sight::enter::enter(references(lent), lent.book, t, env, hs)
}

pub(crate) fn detach(lent: &Lent, t: u32) -> DetachSight
    ensures { Led lent.now → result ≡ detach_sight (tables_of lent.now) t }
{
    sight::detach::detach(pins(lent), lent.book, t)
}

pub(crate) fn end(lent: &Lent) -> EndSight
    ensures { result ≡ end_sight (tables_of lent.now) }
{
    sight::end::end(references(lent), pins(lent), lent.book)
}

pub(crate) fn declare(lent: &Lent, c: u32, superclass: u32) -> DeclareSight
    ensures { result ≡ declare_sight (tables_of lent.now) c superclass }
{
    sight::declare::declare(lent.classes, c, superclass)
}

pub(crate) fn state(lent: &Lent, t: u32, h: Handle, c: u32) -> StateSight
    ensures { Led lent.now → result ≡ state_sight (tables_of lent.now) t h c }
{
    sight::state::state(references(lent), lent.classes, t, h, c)
}

pub(crate) fn identify(lent: &Lent, x: Handle, c: u32) -> IdentifySight
    ensures { result ≡ identify_sight (tables_of lent.now) x c }
{
    sight::identify::identify(lent.classes, x, c)
}
