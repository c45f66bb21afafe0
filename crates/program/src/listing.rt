// The leaks: listed in records, and put into a buffer as they are printed.
ghost use Rattle.std.specs.Prelude.{[], ◌+◌, ◌*◌, ◌-◌, ◌<◌, ◌≤◌, length};
ghost use Rattle.history.specs.Leaks.{shown_leak};
ghost use Rattle.report.specs.Shown.{longest_leak, Fills};
ghost use Rattle.tables.specs.Tables.{tables};
ghost use Rattle.tables.specs.Listing.{leak_numbers};
ghost use Rattle.program.specs.Listing.{Lists, leak_at, shown_from};

use leaks::NUMBERS;
use rows::Number;

// Lists the leaks at the front of the records: how many there are, none where the trace is open or nobody asks.
pub(crate) fn list(
    asked: bool,
    rows: &[Number],
    marks: &[u64],
    pins: &[Number],
    pinmarks: &[u64],
    book: &[u64],
    records: &mut [Number],
) -> usize
    ensures { Lists asked (tables rows.now marks.now pins.now pinmarks.now book.now []) records.old result records.new }
{
    if !asked {
        return 0;
    }
    match leaks::list(rows, marks, pins, pinmarks, book, records) {
        Ok(n) => n,
        Err(_) => 0,
    }
}

// Record i at a place where it has room; what is past it.
fn put_record(out: &mut [u8], at: usize, records: &[Number], i: usize) -> usize
    requires { (at + longest_leak ≤ length out.old) × (i * leak_numbers + 3 < length records.now) }
    ensures { Fills out.old at (shown_leak (leak_at records.now i)) result out.new × (result ≤ at + longest_leak) }
{
    let first = i * NUMBERS;
    let rule = records[first];
    let thread = records[first + 1];
    let value = records[first + 2];
    let line = records[first + 3];
    report::put_leak(out, at, rule, thread, value, line);
    at + report::leak_width(rule, thread, value, line)
}

// The records from one number up to another at the front of a buffer; how long they are.
pub(crate) fn put_records(out: &mut [u8], records: &[Number], from: usize, to: usize) -> usize
    requires { (from ≤ to) × (to * leak_numbers ≤ length records.now) × (longest_leak * (to - from) ≤ length out.old) }
    ensures { Fills out.old 0 (shown_from records.now from (to - from)) result out.new × (result ≤ longest_leak * (to - from)) }
{
    let mut at = 0;
    for i in from..to {
        at = put_record(out, at, records, i);
    }
    at
}
