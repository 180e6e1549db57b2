// A node's words, by their index: kind, place row, name row, children and four facts.
ghost use Rattle.rules.specs.Names.{NodeIndices};

pub const WORDS: usize = 8;

pub const KIND: usize = 0;

pub const PLACE: usize = 1;

pub const NAME: usize = 2;

pub const CHILDREN: usize = 3;

pub const FACT0: usize = 4;

pub const FACT1: usize = 5;

pub const FACT2: usize = 6;

pub const FACT3: usize = 7;

// The row that is missing.
pub const MISSING: u32 = 4294967295;

// Each has what its name says.
pub fn all() -> [usize; WORDS]
    ensures { NodeIndices result }
{
    [KIND, PLACE, NAME, CHILDREN, FACT0, FACT1, FACT2, FACT3]
}
