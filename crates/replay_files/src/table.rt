// A table of the sample: the rows that are lent with it, and the words of an answer.
use replay_input::file::ROW_WORDS;
use replay_input::reader::{Lost, Reader};
use rules::row;

// Where the words of an answer stand, which are eight as a table's are: its number, and how many blocks or rows it tells.
pub const NUMBER: usize = 0;

pub const COUNT: usize = 6;

// The rows that are lent with a table: how many words they are.
pub fn rows_read(sample: &mut Reader<'_>, rows: &mut [u32; ROW_WORDS]) -> Result<usize, Lost> {
    sample.letter(b'R')?;
    let size = sample.bounded(ROW_WORDS / row::WORDS)? * row::WORDS;
    for word in rows.iter_mut().take(size) {
        *word = sample.number()?;
    }
    Ok(size)
}
