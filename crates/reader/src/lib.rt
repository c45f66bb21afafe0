// The reader of lines for C: a line's letter and numbers, or the number given instead.
#![tactic(auto)]

ghost use Rattle.std.specs.Prelude.{◌≡◌};
ghost use Rattle.lines.specs.Reading.{read};
ghost use Rattle.lines.specs.Apart.{apart_of, numbers_left};
ghost use Rattle.reader.specs.Answers.{told, counted};

use lines::apart;
use words::Handle;

// Reads a lent line, all its bytes with the LF: its letter, or, below zero, the number given instead. Its numbers are left in the ten slots, 0 past them, with how many there are;
// where there is no line nothing is written.
pub fn weir_read(line: &[u8], numbers: &mut [Handle; 10], count: &mut u32) -> i32
    ensures value { result ≡ told (apart_of (read line.now)) }
    ensures numbers_after { numbers.new ≡ numbers_left (read line.now) numbers.old }
    ensures count_after { count.new ≡ counted (apart_of (read line.now)) count.old }
{
    match apart::read_apart(line, numbers) {
        Ok(read) => {
            *count = read.count as u32;
            i32::from(read.letter)
        }
        Err(k) => k.told(),
    }
}
