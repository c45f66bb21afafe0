// C: what its findings look at, and the rows that it may end.
ghost use Rattle.std.specs.Prelude.{◌≡◌};
ghost use Rattle.tables.specs.Looked.{table_of, with_all, RowsLed, PinsLed};
ghost use Rattle.sight.specs.Sights.{call_sight};

use crate::seen::in_critical;
use crate::spot::{Spot, place};
use facts::Place;
use facts::classes::NO_CLASS;
use rows::Number;
use tables::Looked;
use words::Handle;

#[derive(Clone, Copy)]
pub struct CallSight {
    pub env: Handle,
    pub pending: u64,
    pub monitors: u64,
    pub pushed: bool,
    pub critical: bool,
    pub pa: Place,
    pub pb: Place,
    pub pc: Place,
    pub a: Spot,
    pub b: Spot,
    pub c: Spot,
}

pub fn call(
    references: Looked,
    pins: Looked,
    book: &[u64],
    classes: &[Number],
    t: u32,
    f: u32,
    a: Handle,
    b: Handle,
    c: Handle,
) -> CallSight
    ensures { RowsLed references.entry × PinsLed pins.entry → result ≡ call_sight (with_all (table_of references.entry) (table_of pins.entry) book.now classes.now) t f a b c }
{
    let env = book::env_of(book, t);
    let pending = book::pending_of(book, t);
    let monitors = book::monitors_of(book, t);
    let pushed = book::top_pushed(book, t);
    let critical = in_critical(pins, t);
    let at = facts::places::places_of(f);
    let pa = at.a;
    let pb = at.b;
    let pc = at.c;
    let at_a = place(references, pins, classes, pa, at.first, t, f, a);
    let at_b = place(references, pins, classes, pb, at.second, t, f, b);
    let at_c = place(references, pins, classes, pc, NO_CLASS, t, f, c);
    CallSight {
        env,
        pending,
        monitors,
        pushed,
        critical,
        pa,
        pb,
        pc,
        a: at_a,
        b: at_b,
        c: at_c,
    }
}
