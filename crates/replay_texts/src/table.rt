// The rows of a text and their ending, held against the sample's.
use crate::compared::{compared, judged, part};
use crate::report::{ENDINGS, ROWS, TABLES};
use replay_input::reader::{Lost, Reader};
use replay_input::tally::Tally;
use replay_input::told::{ending_words, table_of};
use rules::{Told, row};

// The sample's rows and ending against what a scan told and wrote; rows in all words but the last: the sample counts no comments.
pub fn table_compared(
    sample: &mut Reader<'_>,
    tally: &mut Tally,
    rows: &[u32],
    told: Told,
) -> Result<(), Lost> {
    let own = table_of(told).count;
    sample.letter(b'R')?;
    let size = sample.count()?;
    judged(tally, TABLES, size == u64::from(own));
    for i in 0..size {
        let row = part(rows, own as usize, i as usize);
        compared(sample, tally, ROWS, row, row::COMMENTS)?;
    }
    sample.letter(b'E')?;
    compared(sample, tally, ENDINGS, &ending_words(told), 4)
}
