// The library reader for C: its function under the same name, with the same clauses.
#![tactic(auto)]

ghost use Rattle.std.specs.Prelude.{◌≡◌};
ghost use Rattle.lines.specs.Reading.{read};
ghost use Rattle.lines.specs.Apart.{apart_of, numbers_left};
ghost use Rattle.reader.specs.Answers.{told, counted};

use words::Handle;

#[unsafe(no_mangle)]
pub extern "C" fn weir_read(line: &[u8], numbers: &mut [Handle; 10], count: &mut u32) -> i32
    ensures value { result ≡ told (apart_of (read line.now)) }
    ensures numbers_after { numbers.new ≡ numbers_left (read line.now) numbers.old }
    ensures count_after { count.new ≡ counted (apart_of (read line.now)) count.old }
{
    reader::weir_read(line, numbers, count)
}
