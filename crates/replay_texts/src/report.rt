// What is counted, and what is written of it.
use replay_input::lines::one;
use replay_input::tally::{Tally, line};
use std::io;

// What is counted: row counts, rows, endings, refused parses, parses that the sample has no answer for, programs, declarations, nodes.
pub const TABLES: usize = 0;

pub const ROWS: usize = 1;

pub const ENDINGS: usize = 2;

pub const REFUSALS: usize = 3;

pub const UNCOMPARED: usize = 4;

pub const PROGRAMS: usize = 5;

pub const DECLARATIONS: usize = 6;

pub const NODES: usize = 7;

// The counter of the words that the sample does not say.
pub const UNSAID: usize = 8;

// How many of each thing agreed.
pub fn counts(rt: &impl Print, tally: &Tally) -> io::Result<()> {
    line(rt, b"row counts ", tally, TABLES)?;
    line(rt, b"rows ", tally, ROWS)?;
    line(rt, b"endings ", tally, ENDINGS)?;
    line(rt, b"parse refusals ", tally, REFUSALS)?;
    line(rt, b"programs ", tally, PROGRAMS)?;
    line(rt, b"declarations ", tally, DECLARATIONS)?;
    line(rt, b"nodes ", tally, NODES)?;
    line(
        rt,
        b"parses that only the language answers ",
        tally,
        UNCOMPARED,
    )?;
    one(
        rt,
        b"words that the sample does not say ",
        tally.counters[UNSAID].seen,
    )
}
