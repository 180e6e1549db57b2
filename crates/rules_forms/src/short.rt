// Where things stand in a file of form 2, as far as it differs from form 1: the bytes of a row and of what block 0 says.
ghost use Rattle.std.specs.Prelude.{◌≡◌};
ghost use Rattle.rules_forms.specs.Short.{numbers};

// The bytes of a row, and of what block 0 says; rows to a block, and their words.
pub const ROW: usize = 24;

pub const SAID: usize = 20;

pub const ROWS: usize = 21;

pub const BLOCK_WORDS: usize = 126;

// Which of a row's words its value and its comments are.
pub const LOW: usize = 3;

pub const HIGH: usize = 4;

pub const COMMENTS: usize = 5;

// The form's number.
pub const NUMBER: u32 = 2;

// All of them are the definitions'.
pub fn all() -> [usize; 5]
    ensures { result ≡ numbers }
{
    [ROW, SAID, ROWS, BLOCK_WORDS, NUMBER as usize]
}
