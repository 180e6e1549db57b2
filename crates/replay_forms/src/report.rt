// What is counted, and what is written of it.
use replay_input::lines::{one, two};
use replay_input::tally::Tally;
use std::io;

// The calls that agree: by the number that is expected of them, 0 where nothing is refused; then by kind.
pub const NUMBERS: usize = 46;

pub const KINDS: usize = 3;

// The calls that agree, by what is expected of them.
fn numbers_written(rt: &impl Print, tally: &Tally) -> io::Result<()> {
    for (i, counter) in tally.counters.iter().enumerate().take(NUMBERS) {
        if 0 < counter.agreed {
            two(rt, b"expected ", i as u64, b": agreed ", counter.agreed)?;
        }
    }
    Ok(())
}

// All counts.
pub fn counts(rt: &impl Print, tally: &Tally) -> io::Result<()> {
    let kinds = &tally.counters[NUMBERS..];
    one(rt, b"readings beside the text: agreed ", kinds[0].agreed)?;
    one(rt, b"moves: agreed ", kinds[1].agreed)?;
    one(rt, b"mendings: agreed ", kinds[2].agreed)?;
    numbers_written(rt, tally)?;
    one(rt, b"differences ", tally.differences)
}
