// One line of the trace, where the tables were found to be fit.
ghost use Rattle.std.specs.Prelude.{◌≡◌};
ghost use Rattle.tables.specs.Lent.{tables_of, Same, Led};
ghost use Rattle.events.specs.Outcome.{leaves};
ghost use Rattle.judge.specs.Outcome.{step_outcome};
ghost use Rattle.run.specs.Fit.{FitBut};

use crate::fit;
use answers::Answer;
use events::heard;
use judge::items;
use tables::Lent;

// What `judge::step` answers and leaves. Since the book was found fit, `touched` is the one thread that a line has touched; then it is this line's.
pub(crate) fn step(lent: &mut Lent, line: &[u8], touched: &mut u32) -> Answer
    requires { Led lent.old × FitBut (tables_of lent.old) touched.old }
    ensures outcome { leaves result (tables_of lent.new) ≡ step_outcome (tables_of lent.old) line.now }
    ensures same { Same lent.new lent.old }
    ensures led { Led lent.new }
    ensures fit { FitBut (tables_of lent.new) touched.new }
{
    fit::allows(lent, *touched)?;
    let mut handles = [0; 8];
    let event = lines::read_line(line, &mut handles)?;
    *touched = items::thread_of(Ok(event));
    heard::on_event(lent, event, handles)
}
