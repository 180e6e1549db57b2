// Where things stand in a file: the bytes of a block, of block 0, and of a row.
ghost use Rattle.std.specs.Prelude.{◌≡◌};
ghost use Rattle.rules_files.specs.Files.{numbers};

// The bytes of a block, those that its check is over, and those in front of its content.
pub const BLOCK: usize = 512;

pub const CHECKED: usize = 508;

pub const CONTENT: usize = 4;

// The bytes of a word, of a row, and of what block 0 says; rows to a block, and their words.
pub const WORD: usize = 4;

pub const ROW: usize = 32;

pub const SAID: usize = 28;

pub const ROWS: usize = 15;

pub const BLOCK_WORDS: usize = 120;

// The form's number, and the most rows that are stored.
pub const NUMBER: u32 = 1;

pub const MOST_ROWS: u32 = 65535;

// All of them are the definitions'.
pub fn all() -> [usize; 10]
    ensures { result ≡ numbers }
{
    [
        BLOCK,
        CHECKED,
        CONTENT,
        WORD,
        ROW,
        SAID,
        ROWS,
        BLOCK_WORDS,
        NUMBER as usize,
        MOST_ROWS as usize,
    ]
}
