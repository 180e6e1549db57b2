// What is counted, and what is written of it.
use replay_input::lines::one;
use replay_input::tally::{Tally, line, numbers};
use std::io;

// The calls: by the number that is expected of them, 0 where nothing is refused; then by what is changed.
pub const NUMBERS: usize = 5;

pub const FORGED: usize = 4;

// All counts.
pub fn counts(rt: &impl Print, tally: &Tally) -> io::Result<()> {
    line(rt, b"nothing changed: ", tally, NUMBERS)?;
    line(rt, b"a word of the rows: ", tally, NUMBERS + 1)?;
    line(rt, b"a word of the nodes: ", tally, NUMBERS + 2)?;
    line(rt, b"the node count: ", tally, NUMBERS + 3)?;
    numbers(rt, tally, 0, NUMBERS)?;
    one(rt, b"differences ", tally.differences)
}
