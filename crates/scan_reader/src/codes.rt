// What is told at an index where no row stands: codes above the kinds of rows.
ghost use Rattle.std.specs.Prelude.{◌≡◌};
ghost use Rattle.scan_reader.specs.Brief.{codes};

pub const BLANK: u32 = 64;

// A comment to the end of its line, and one to its closing bytes.
pub const LINE: u32 = 65;

pub const BLOCK: u32 = 66;

// The text's end, and that more bytes must be shown.
pub const END: u32 = 67;

pub const UNKNOWN: u32 = 68;

// Refusals, from here on; their order is not that of the refusals' numbers.
pub const REFUSED: u32 = 69;

pub const NO_ROW_BEGINS: u32 = REFUSED;

pub const LONE_SIGN: u32 = REFUSED + 1;

pub const NO_HEX_DIGIT: u32 = REFUSED + 2;

pub const OPEN_COMMENT: u32 = REFUSED + 3;

pub const OPEN_STRING: u32 = REFUSED + 4;

pub const BAD_ESCAPE: u32 = REFUSED + 5;

pub const NUMBER_TOO_LARGE: u32 = REFUSED + 6;

const ALL: [u32; 12] = [
    BLANK,
    LINE,
    BLOCK,
    END,
    UNKNOWN,
    NO_ROW_BEGINS,
    LONE_SIGN,
    NO_HEX_DIGIT,
    OPEN_COMMENT,
    OPEN_STRING,
    BAD_ESCAPE,
    NUMBER_TOO_LARGE,
];

// All of them are the definitions'.
pub fn all() -> [u32; 12]
    ensures { result ≡ codes }
{
    ALL
}
