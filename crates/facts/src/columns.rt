// The table of functions by its columns: a letter for each function number.
ghost use Rattle.std.specs.Prelude.{◌≡◌, [], ◌<◌, get_or};
ghost use Rattle.facts.specs.Letters.{lines, letter_at};

// No letter: no places, nothing, not allowed, no family; and no function.
pub(crate) const NONE: u8 = b'-';

const LETTERS: usize = 8;

const LINES: usize = 30;

const NUMBERS: usize = LINES * LETTERS;

// A letter for each number from 0 on, eight to a line. Beside a line stands its first number.
pub(crate) type Column = [[u8; LETTERS]; LINES];

// What stands at the places, and the classes fixed for them, by the letters of `places::as_places`.
pub(crate) const PLACES: Column = [
    *b"-----A-E", // 0
    *b"EMFIMHF-", // 8
    *b"----AABC", // 16
    *b"JA-FMMME", // 24
    *b"KFLLLLLL", // 32
    *b"LLLLLLLL", // 40
    *b"LLLLLLLL", // 48
    *b"LLLLLLLL", // 56
    *b"NNNNNNNN", // 64
    *b"NNNNNNNN", // 72
    *b"NNNNNNNN", // 80
    *b"NNNNNNFL", // 88
    *b"LLLLLLLL", // 96
    *b"OLLLLLLL", // 104
    *b"LFMMMMMM", // 112
    *b"MMMMMMMM", // 120
    *b"MMMMMMMM", // 128
    *b"MMMMMMMM", // 136
    *b"FMMMMMMM", // 144
    *b"MMPMMMMM", // 152
    *b"MMM-GGT-", // 160
    *b"GGTEREQ-", // 168
    *b"-------E", // 176
    *b"EEEEEEES", // 184
    *b"SSSSSSSE", // 192
    *b"EEEEEEEE", // 200
    *b"EEEEEEEF", // 208
    *b"FEE-GGES", // 216
    *b"GTAD--EE", // 224
    *b"--------", // 232
];

// What is given back: `L` `G` `W` handle of that kind, `I` identity, `B` buffer, `S` status.
pub(crate) const RESULT: Column = [
    *b"-----LLI", // 0
    *b"ILL-L--L", // 8
    *b"---SLG--", // 16
    *b"-LSLLLLL", // 24
    *b"-ILLL---", // 32
    *b"--------", // 40
    *b"--------", // 48
    *b"--------", // 56
    *b"LLL-----", // 64
    *b"--------", // 72
    *b"--------", // 80
    *b"------IL", // 88
    *b"--------", // 96
    *b"--------", // 104
    *b"-ILLL---", // 112
    *b"--------", // 120
    *b"--------", // 128
    *b"--------", // 136
    *b"IL------", // 144
    *b"--------", // 152
    *b"---L-B-L", // 160
    *b"-B--LL-L", // 168
    *b"LLLLLLLB", // 176
    *b"BBBBBBB-", // 184
    *b"--------", // 192
    *b"--------", // 200
    *b"--------", // 208
    *b"-SS---B-", // 216
    *b"B-W--L--", // 224
    *b"--------", // 232
];

// `p`: allowed with an exception pending.
pub(crate) const PENDING: Column = [
    *b"--------", // 0
    *b"-------p", // 8
    *b"pp-pp-pp", // 16
    *b"--------", // 24
    *b"--------", // 32
    *b"--------", // 40
    *b"--------", // 48
    *b"--------", // 56
    *b"--------", // 64
    *b"--------", // 72
    *b"--------", // 80
    *b"--------", // 88
    *b"--------", // 96
    *b"--------", // 104
    *b"--------", // 112
    *b"--------", // 120
    *b"--------", // 128
    *b"--------", // 136
    *b"--------", // 144
    *b"--------", // 152
    *b"------p-", // 160
    *b"--p-----", // 168
    *b"--------", // 176
    *b"-------p", // 184
    *b"ppppppp-", // 192
    *b"--------", // 200
    *b"--------", // 208
    *b"--p----p", // 216
    *b"-p-pp---", // 224
    *b"--------", // 232
];

// `c`: allowed inside a critical region.
pub(crate) const CRITICAL: Column = [
    *b"--------", // 0
    *b"--------", // 8
    *b"--------", // 16
    *b"--------", // 24
    *b"--------", // 32
    *b"--------", // 40
    *b"--------", // 48
    *b"--------", // 56
    *b"--------", // 64
    *b"--------", // 72
    *b"--------", // 80
    *b"--------", // 88
    *b"--------", // 96
    *b"--------", // 104
    *b"--------", // 112
    *b"--------", // 120
    *b"--------", // 128
    *b"--------", // 136
    *b"--------", // 144
    *b"--------", // 152
    *b"--------", // 160
    *b"--------", // 168
    *b"--------", // 176
    *b"--------", // 184
    *b"--------", // 192
    *b"--------", // 200
    *b"--------", // 208
    *b"------cc", // 216
    *b"cc------", // 224
    *b"--------", // 232
];

// `A` to `L`: buffer families 0 to 11.
pub(crate) const FAMILY: Column = [
    *b"--------", // 0
    *b"--------", // 8
    *b"--------", // 16
    *b"--------", // 24
    *b"--------", // 32
    *b"--------", // 40
    *b"--------", // 48
    *b"--------", // 56
    *b"--------", // 64
    *b"--------", // 72
    *b"--------", // 80
    *b"--------", // 88
    *b"--------", // 96
    *b"--------", // 104
    *b"--------", // 112
    *b"--------", // 120
    *b"--------", // 128
    *b"--------", // 136
    *b"--------", // 144
    *b"--------", // 152
    *b"-----AA-", // 160
    *b"-BB-----", // 168
    *b"-------C", // 176
    *b"DEFGHIJC", // 184
    *b"DEFGHIJ-", // 192
    *b"--------", // 200
    *b"--------", // 208
    *b"------KK", // 216
    *b"LL------", // 224
    *b"--------", // 232
];

// What is wanted of an identity: `m` a method that is not static, `M` a static one, `f` `F` likewise a field, `w` `W` a field that is written; `a` any method,
// `b` any field.
pub(crate) const IDENTITY: Column = [
    *b"--------", // 0
    *b"-a--b---", // 8
    *b"--------", // 16
    *b"----mmm-", // 24
    *b"--mmmmmm", // 32
    *b"mmmmmmmm", // 40
    *b"mmmmmmmm", // 48
    *b"mmmmmmmm", // 56
    *b"mmmmmmmm", // 64
    *b"mmmmmmmm", // 72
    *b"mmmmmmmm", // 80
    *b"mmmmmm-f", // 88
    *b"ffffffff", // 96
    *b"wwwwwwww", // 104
    *b"w-MMMMMM", // 112
    *b"MMMMMMMM", // 120
    *b"MMMMMMMM", // 128
    *b"MMMMMMMM", // 136
    *b"-FFFFFFF", // 144
    *b"FFWWWWWW", // 152
    *b"WWW-----", // 160
    *b"--------", // 168
    *b"--------", // 176
    *b"--------", // 184
    *b"--------", // 192
    *b"--------", // 200
    *b"--------", // 208
    *b"--------", // 216
    *b"--------", // 224
    *b"--------", // 232
];

// A line of a column. A `match`, whose arms are laid down as constant data; read at a place unknown to the compiler, the column is built anew on the stack (60 to 80 ns).
fn line(t: Column, i: usize) -> [u8; LETTERS]
    requires { i < lines }
    ensures { result ≡ get_or t i [] }
{
    match i {
        0 => t[0],
        1 => t[1],
        2 => t[2],
        3 => t[3],
        4 => t[4],
        5 => t[5],
        6 => t[6],
        7 => t[7],
        8 => t[8],
        9 => t[9],
        10 => t[10],
        11 => t[11],
        12 => t[12],
        13 => t[13],
        14 => t[14],
        15 => t[15],
        16 => t[16],
        17 => t[17],
        18 => t[18],
        19 => t[19],
        20 => t[20],
        21 => t[21],
        22 => t[22],
        23 => t[23],
        24 => t[24],
        25 => t[25],
        26 => t[26],
        27 => t[27],
        28 => t[28],
        _ => t[29],
    }
}

// The letter of number f in a column.
pub(crate) fn letter(t: Column, f: u32) -> u8
    ensures { result ≡ letter_at t f }
{
    let at = f as usize;
    if NUMBERS <= at {
        return NONE;
    }
    let letters = line(t, at / LETTERS);
    letters[at % LETTERS]
}
