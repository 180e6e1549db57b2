// Limits: of a text, of nesting, of shift counts, and of words and values.
ghost use Rattle.std.specs.Prelude.{◌≡◌};
ghost use Rattle.rules.specs.Names.{limits};

use crate::{node, row};

// How many bytes a text may have: as a length, in a word, and in a wider number.
pub const MOST_BYTES: usize = 65536;

pub const MOST_BYTES_U32: u32 = MOST_BYTES as u32;

pub const MOST_BYTES_U64: u64 = MOST_BYTES as u64;

// How many bytes behind the new ones a window must show.
pub const JUDGING: u64 = 4;

// How many constructs may be open.
pub const MOST_OPEN: usize = 64;

// The largest shift count.
pub const MOST_SHIFT: u64 = 63;

// The largest word, and one more.
pub const MOST_WORD: u64 = 4294967295;

pub const ABOVE_WORD: u64 = 4294967296;

// The largest number that a text can spell, and the bit of the sign.
pub const LARGEST: u64 = 9223372036854775807;

pub const SIGN_BIT: u64 = 9223372036854775808;

// The largest value of 64 bits.
pub const ALL_BITS: u64 = 18446744073709551615;

const ALL: [u64; 14] = [
    MOST_BYTES as u64,
    MOST_BYTES_U32 as u64,
    MOST_BYTES_U64,
    JUDGING,
    MOST_OPEN as u64,
    MOST_SHIFT,
    MOST_WORD,
    ABOVE_WORD,
    LARGEST,
    SIGN_BIT,
    ALL_BITS,
    node::MISSING as u64,
    node::WORDS as u64,
    row::WORDS as u64,
];

// All of them are the definitions'.
pub fn all() -> [u64; 14]
    ensures { result ≡ limits }
{
    ALL
}
