// Pin rows with their guide: a row that is stored or ended is so in both.
ghost use Rattle.std.specs.Prelude.{◌≡◌, ◌<◌, length};
ghost use Rattle.rows.specs.Table.{table, free_row, stored, ended};
ghost use Rattle.rows.specs.Pins.{pins};
ghost use Rattle.guide.specs.Pins.{Leads};
ghost use Rattle.tables.specs.Lent.{tables_of, Same, Led, NextPin, with_pins};

use crate::Lent;
use rows::Number;
use rows::pins::Pin;

fn store_row(rows: &mut [Number], marks: &mut [u64], guide: &mut [u64], r: usize, row: Pin)
    ensures left { table rows.new marks.new ≡ stored pins (table rows.old marks.old) r row }
    ensures led { Leads (table rows.old marks.old) guide.old → (0 < length guide.old → r ≡ free_row pins (table rows.old marks.old)) → Leads (table rows.new marks.new) guide.new }
{
    rows::pins::store(rows, marks, r, row);
    guide::pins::note(rows, marks, guide, r);
}

// Row r, the lowest free one where there is a guide, holds this.
pub fn store(lent: &mut Lent, r: usize, row: Pin)
    ensures left { tables_of lent.new ≡ with_pins (tables_of lent.old) (stored pins (tables_of lent.old).pins r row) }
    ensures same { Same lent.new lent.old }
    ensures led { Led lent.old → NextPin lent.old r → Led lent.new }
{
    store_row(lent.pins, lent.pinmarks, lent.pinguide, r, row);
}

fn end_row(rows: &mut [Number], marks: &mut [u64], guide: &mut [u64], r: usize)
    ensures left { table rows.new marks.new ≡ ended pins (table rows.old marks.old) r }
    ensures led { Leads (table rows.old marks.old) guide.old → Leads (table rows.new marks.new) guide.new }
{
    guide::pins::forget(rows, marks, guide, r);
    rows::pins::end(rows, marks, r);
}

// Ends row r.
pub fn end(lent: &mut Lent, r: usize)
    ensures left { tables_of lent.new ≡ with_pins (tables_of lent.old) (ended pins (tables_of lent.old).pins r) }
    ensures same { Same lent.new lent.old }
    ensures led { Led lent.old → Led lent.new }
{
    end_row(lent.pins, lent.pinmarks, lent.pinguide, r);
}
