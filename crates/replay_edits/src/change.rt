// An edit of the sample: its numbers, the text that it makes, the old table changed, and the rows that are expected.
ghost use Rattle.std.specs.Prelude.{◌≡◌, length};

use replay_input::memory::{first, put};
use replay_input::reader::{Lost, Reader};
use rules::{kind, row};

// The most bytes of a text, and the words that there are for its rows.
pub const BYTES: usize = 600;

pub const WORDS: usize = 2500;

// What kind of edit it is; old bytes a to b become n others.
#[derive(Clone, Copy)]
pub struct Edit {
    pub kind: u32,
    pub a: u32,
    pub b: u32,
    pub n: u32,
}

// The next edit's numbers.
pub fn edit_read(sample: &mut Reader<'_>) -> Result<Edit, Lost> {
    sample.letter(b'A')?;
    Ok(Edit {
        kind: sample.number()?,
        a: sample.number()?,
        b: sample.number()?,
        n: sample.number()?,
    })
}

// The text that an edit makes of an old one: how many bytes it has.
pub fn edited(text: &mut [u8; BYTES], old: &[u8], edit: Edit, new: &[u8]) -> usize {
    let kept = put(text, 0, first(old, edit.a as usize));
    let grown = put(text, kept, new);
    put(text, grown, old.get(edit.b as usize..).unwrap_or(&[]))
}

// Words of the old rows, each changed to what the sample says.
pub fn damaged(sample: &mut Reader<'_>, rows: &mut [u32; WORDS]) -> Result<(), Lost> {
    sample.letter(b'D')?;
    for _ in 0..sample.count()? {
        let index = sample.number()? as usize;
        let word = sample.number()?;
        *rows.get_mut(index).ok_or(Lost)? = word;
    }
    Ok(())
}

// The next row, in all words but the last, which the sample does not have. A number's value is the sample's, any other row's is zero.
fn row_read(sample: &mut Reader<'_>, row: &mut [u32]) -> Result<(), Lost>
    requires { length row.old ≡ 8 }
{
    sample.numbers(&mut row[..row::LOW])?;
    let is_number = row[row::KIND] == kind::NUMBER;
    let value = &mut row[row::LOW..row::COMMENTS];
    if is_number {
        return sample.numbers(value);
    }
    value.fill(0);
    Ok(())
}

// The rows that are expected.
pub fn rows_read(sample: &mut Reader<'_>, rows: &mut [u32; WORDS]) -> Result<(), Lost> {
    sample.letter(b'R')?;
    let size = sample.bounded(WORDS / row::WORDS)?;
    for row in rows.chunks_exact_mut(row::WORDS).take(size) {
        row_read(sample, row)?;
    }
    Ok(())
}
