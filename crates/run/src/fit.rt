// Refusal 8 and line 1,000,001, where only one thread was touched since the last test.
ghost use Rattle.std.specs.Prelude.{◌≡◌};
ghost use Rattle.lines.specs.Numbered.{passes};
ghost use Rattle.tables.specs.Lent.{tables_of};
ghost use Rattle.judge.specs.Outcome.{by_tables};
ghost use Rattle.run.specs.Fit.{FitBut};

use lines::ranges::THREADS;
use lines::refusal::Refusal;
use tables::Lent;

// What `judge::allows` tells. Row 0 is no thread's, and 8 does not look at what stands there but the line count.
pub(crate) fn allows(lent: &Lent, t: u32) -> Result<(), Refusal>
    requires { FitBut (tables_of lent.now) t }
    ensures { result ≡ passes (by_tables (tables_of lent.now)) }
{
    if (1 <= t) & (t <= THREADS) & book::is_overdone(lent.book, t) {
        return Err(Refusal::Unfit);
    }
    if book::MOST_LINES <= book::lines_of(lent.book) {
        return Err(Refusal::Length);
    }
    Ok(())
}
