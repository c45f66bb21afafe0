// The library exported for C and other Rust: its functions under the same names, each with the same clauses.
#![tactic(auto)]

ghost use Rattle.std.specs.Prelude.{◌≡◌, List, ℕ};
ghost use Rattle.tables.specs.Tables.{tables};
ghost use Rattle.tables.specs.Stepping.{start_of};
ghost use Rattle.tables.specs.Listing.{list_of};
ghost use Rattle.trace.specs.Whole.{whole_outcome};
ghost use Rattle.exported.specs.Judged.{judges, judged};
ghost use Rattle.exported.specs.Listed.{tells_list, list_told};
ghost use Rattle.exported.specs.Pieced.{tells_piece, piece_told};
ghost use Rattle.exported.specs.Told.{tells, step_told};

use rows::Number;
use words::Handle;

#[unsafe(no_mangle)]
pub extern "C" fn weir_start(
    rows: &mut [Number],
    marks: &mut [u64],
    pins: &mut [Number],
    pinmarks: &mut [u64],
    book: &mut [u64],
    classes: &mut [Number],
)
    ensures { tables rows.new marks.new pins.new pinmarks.new book.new classes.new ≡ start_of (tables rows.old marks.old pins.old pinmarks.old book.old classes.old) }
{
    exported::weir_start(rows, marks, pins, pinmarks, book, classes)
}

#[unsafe(no_mangle)]
pub extern "C" fn weir_step(
    line: &[u8],
    rows: &mut [Number],
    marks: &mut [u64],
    pins: &mut [Number],
    pinmarks: &mut [u64],
    book: &mut [u64],
    classes: &mut [Number],
    found: &mut [Handle],
) -> i32
    ensures { tells result (tables rows.new marks.new pins.new pinmarks.new book.new classes.new) found.new ≡ step_told (tables rows.old marks.old pins.old pinmarks.old book.old classes.old) line.now found.old }
{
    exported::weir_step(line, rows, marks, pins, pinmarks, book, classes, found)
}

#[unsafe(no_mangle)]
pub extern "C" fn weir_piece(
    piece: &[u8],
    ended: u32,
    rows: &mut [Number],
    marks: &mut [u64],
    pins: &mut [Number],
    pinmarks: &mut [u64],
    book: &mut [u64],
    classes: &mut [Number],
    out: &mut [u8],
    far: &mut [u64],
) -> i32
    ensures { tells_piece result (tables rows.new marks.new pins.new pinmarks.new book.new classes.new) out.new far.new ≡ piece_told ended (tables rows.old marks.old pins.old pinmarks.old book.old classes.old) piece.now out.old far.old }
{
    exported::weir_piece(
        piece, ended, rows, marks, pins, pinmarks, book, classes, out, far,
    )
}

#[unsafe(no_mangle)]
pub extern "C" fn weir_leaks(
    rows: &[Number],
    marks: &[u64],
    pins: &[Number],
    pinmarks: &[u64],
    book: &[u64],
    leaks: &mut [Number],
) -> i32
    ensures { (cs : List ℕ) → tells_list result leaks.new ≡ list_told (list_of (tables rows.now marks.now pins.now pinmarks.now book.now cs) leaks.old) }
{
    exported::weir_leaks(rows, marks, pins, pinmarks, book, leaks)
}

#[unsafe(no_mangle)]
pub extern "C" fn weir_judge(
    trace: &[u8],
    rows: &mut [Number],
    marks: &mut [u64],
    pins: &mut [Number],
    pinmarks: &mut [u64],
    book: &mut [u64],
    classes: &mut [Number],
    out: &mut [u8],
) -> usize
    ensures { judges result (tables rows.new marks.new pins.new pinmarks.new book.new classes.new) out.new ≡ judged (whole_outcome (tables rows.old marks.old pins.old pinmarks.old book.old classes.old) trace.now out.old) }
{
    exported::weir_judge(trace, rows, marks, pins, pinmarks, book, classes, out)
}
