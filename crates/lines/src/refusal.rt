// Why a line is refused: the ten numbers of document 01.
ghost use Rattle.std.specs.Prelude.{◌≡◌, pos, neg_ℤ};

#[derive(Clone, Copy, Debug, PartialEq, Eq)]
pub enum Refusal {
    // Too long, without LF, or line 1,000,001.
    Length = 1,
    Form = 2,
    Range = 3,
    OutOfStep = 4,
    WrongEnv = 5,
    AlreadyAlive = 6,
    NoRoom = 7,
    // The lent tables cannot be judged over.
    Unfit = 8,
    WrongClass = 9,
    NotAlive = 10,
}

impl Refusal {
    ghost use Rattle.lines.specs.Numbered.{number_of};

    pub fn number(self) -> u8
        ensures { result ≡ number_of self }
    {
        self as u8
    }

    // As C is told of it: its number below zero.
    pub fn told(self) -> i32
        ensures { result ≡ neg_ℤ (pos (number_of self)) }
    {
        -i32::from(self.number())
    }
}
