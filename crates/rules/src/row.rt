// A row's words, by their index: kind, start, end, line, column, value low, value high, and how many comments stand in the gap before it.
ghost use Rattle.rules.specs.Names.{RowIndices};

pub const WORDS: usize = 8;

pub const KIND: usize = 0;

pub const START: usize = 1;

pub const END: usize = 2;

pub const LINE: usize = 3;

pub const COLUMN: usize = 4;

pub const LOW: usize = 5;

pub const HIGH: usize = 6;

pub const COMMENTS: usize = 7;

// Each has what its name says.
pub fn all() -> [usize; WORDS]
    ensures { RowIndices result }
{
    [KIND, START, END, LINE, COLUMN, LOW, HIGH, COMMENTS]
}
