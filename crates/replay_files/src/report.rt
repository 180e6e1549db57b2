// What is counted, and what is written of it.
use replay_input::lines::one;
use replay_input::tally;
use replay_input::tally::{Tally, line, numbers};
use std::io;

// What is counted: calls by the number that is expected of them, 0 where nothing is refused; loads by what happened to the file; and all
// of a thing.
pub const DAMAGES: usize = 45;

pub const STORES: usize = 52;

pub const LOADS: usize = 53;

pub const BLOCKS: usize = 54;

pub const ROWS: usize = 55;

// Eight words that were told against those that are expected: what differs is written.
pub fn words_compared(
    rt: &impl Print,
    tally: &mut Tally,
    ours: &[u32; 8],
    theirs: &[u32; 8],
) -> io::Result<()> {
    tally::words_compared(rt, tally, b"table ", ours, theirs)
}

// The loads by what happened to the file.
fn damages(rt: &impl Print, tally: &Tally) -> io::Result<()> {
    line(rt, b"sound: ", tally, DAMAGES)?;
    line(rt, b"one byte changed: ", tally, DAMAGES + 1)?;
    line(
        rt,
        b"one byte changed, its check made right: ",
        tally,
        DAMAGES + 2,
    )?;
    line(rt, b"two blocks swapped: ", tally, DAMAGES + 3)?;
    line(rt, b"cut: ", tally, DAMAGES + 4)?;
    line(rt, b"a block or bytes too many: ", tally, DAMAGES + 5)?;
    line(
        rt,
        b"block 0 says something else, its check made right: ",
        tally,
        DAMAGES + 6,
    )
}

// All counts.
pub fn counts(rt: &impl Print, tally: &Tally) -> io::Result<()> {
    line(rt, b"stores ", tally, STORES)?;
    line(rt, b"loads ", tally, LOADS)?;
    line(rt, b"blocks ", tally, BLOCKS)?;
    line(rt, b"rows ", tally, ROWS)?;
    damages(rt, tally)?;
    numbers(rt, tally, 0, DAMAGES)?;
    one(rt, b"differences ", tally.differences)
}
