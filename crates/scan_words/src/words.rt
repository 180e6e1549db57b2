// The reserved words as one table: spellings padded to eight bytes, their lengths and their kinds. The lookup takes each
// word from here (`slots::held`).
ghost use Rattle.std.specs.Prelude.{◌≡◌, ◌<◌};
ghost use Rattle.scan_words.specs.Words.{packed_of, held_at};

use rules::kind;

// Stays three arrays: that form was asked for (docs/DECISIONS.md, "Forms that were asked for").
const SPELLINGS: [[u8; 8]; 21] = [
    *b"unit    ",
    *b"section ",
    *b"license ",
    *b"return  ",
    *b"reg     ",
    *b"imm     ",
    *b"map     ",
    *b"type    ",
    *b"key     ",
    *b"value   ",
    *b"max     ",
    *b"if      ",
    *b"else    ",
    *b"guard   ",
    *b"heap    ",
    *b"event   ",
    *b"bytes   ",
    *b"u32     ",
    *b"u64     ",
    *b"i32     ",
    *b"i64     ",
];

const LENGTHS: [usize; 21] = [
    4, 7, 7, 6, 3, 3, 3, 4, 3, 5, 3, 2, 4, 5, 4, 5, 5, 3, 3, 3, 3,
];

const KINDS: [u32; 21] = [
    kind::UNIT,
    kind::SECTION,
    kind::LICENSE,
    kind::RETURN,
    kind::REG,
    kind::IMM,
    kind::MAP,
    kind::TYPE,
    kind::KEY,
    kind::VALUE,
    kind::MAX,
    kind::IF,
    kind::ELSE,
    kind::GUARD,
    kind::HEAP,
    kind::EVENT,
    kind::BYTES,
    kind::TYPE_U32,
    kind::TYPE_U64,
    kind::TYPE_I32,
    kind::TYPE_I64,
];

// What a number of eight bytes keeps of those before its last, and what they are worth beside it.
pub const BEFORE_LAST: u64 = 72057594037927936;

pub const ABOVE_BYTE: u64 = 256;

// A word of the table: its padded spelling as one number, the last byte lowest, its length and its kind.
#[derive(Clone, Copy)]
pub struct Held {
    pub spelling: u64,
    pub length: usize,
    pub kind: u32,
}

// Bytes as one number, the last lowest; eight fit.
fn number(s: &[u8]) -> u64
    ensures { result ≡ packed_of 0 s.now }
{
    let mut v = 0;
    for b in s {
        v = v % BEFORE_LAST * ABOVE_BYTE + u64::from(*b);
    }
    v
}

// A word of the table by its place there.
pub fn word_at(i: usize) -> Held
    requires { i < 21 }
    ensures { result ≡ held_at i }
{
    let spellings = SPELLINGS;
    let lengths = LENGTHS;
    let kinds = KINDS;
    let spelling = spellings[i];
    Held {
        spelling: number(&spelling),
        length: lengths[i],
        kind: kinds[i],
    }
}
