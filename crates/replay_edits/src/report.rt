// What is counted, and what is written of it.
use replay_input::lines::one;
use replay_input::tally::{Tally, line, numbers};
use std::io;

// What is counted: calls by the number that is expected of them, 0 where all rows are; by the kind of edit; and all of a thing.
pub const KINDS: usize = 18;

pub const RESTARTS: usize = 29;

pub const CALLS: usize = 30;

pub const ROWS: usize = 31;

pub const CHANGES: usize = 32;

// The calls by the kind of edit.
fn kinds(rt: &impl Print, tally: &Tally) -> io::Result<()> {
    line(rt, b"worked cases: ", tally, KINDS)?;
    line(rt, b"at the text's start: ", tally, KINDS + 1)?;
    line(rt, b"at the text's end: ", tally, KINDS + 2)?;
    line(rt, b"in a comment: ", tally, KINDS + 3)?;
    line(rt, b"in a string: ", tally, KINDS + 4)?;
    line(rt, b"opening a comment or string: ", tally, KINDS + 5)?;
    line(rt, b"closing a comment or string: ", tally, KINDS + 6)?;
    line(rt, b"in a text that ends in a refusal: ", tally, KINDS + 7)?;
    line(rt, b"anywhere: ", tally, KINDS + 8)?;
    line(
        rt,
        b"with numbers or bytes that no text allows: ",
        tally,
        KINDS + 9,
    )?;
    line(rt, b"of a damaged table: ", tally, KINDS + 10)
}

// All counts.
pub fn counts(rt: &impl Print, tally: &Tally) -> io::Result<()> {
    line(rt, b"restart places ", tally, RESTARTS)?;
    line(rt, b"calls ", tally, CALLS)?;
    line(rt, b"changes ", tally, CHANGES)?;
    line(rt, b"rows ", tally, ROWS)?;
    kinds(rt, tally)?;
    line(rt, b"expected all rows: ", tally, 0)?;
    numbers(rt, tally, 1, KINDS)?;
    one(rt, b"differences ", tally.differences)
}
