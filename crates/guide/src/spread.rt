// A value, which is a handle or a buffer, spread over a guide's places.
ghost use Rattle.std.specs.Prelude.{◌≡◌, ◌<◌};
ghost use Rattle.guide.specs.Spread.{most_beside, spread};

use rows::Number;

const HALF: Number = 4294967296;

// The three factors are chosen so that no sum is over 64 bits.
pub(crate) fn spread(v: Number, beside: u64) -> u64
    requires { beside < most_beside }
    ensures { result ≡ spread v beside }
{
    v % HALF * 2654435769 + v / HALF * 1597334677 + beside * 2246822519
}
