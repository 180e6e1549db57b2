// A file that the sample has, byte for byte where it is not zero.
use crate::reader::{Lost, Reader};

// The most bytes that are lent for a file, and the most words that are lent for its rows.
pub const BYTES: usize = 3072;

pub const ROW_WORDS: usize = 376;

// Bytes of a file, each changed to what the sample says.
pub fn changed(sample: &mut Reader<'_>, file: &mut [u8; BYTES]) -> Result<(), Lost> {
    for _ in 0..sample.number()? {
        let place = sample.bounded(BYTES - 1)?;
        let byte = sample.byte()?;
        if let Some(at) = file.get_mut(place) {
            *at = byte;
        }
    }
    Ok(())
}

// The sample's next file, over zeros: how many bytes it has.
pub fn file_read(sample: &mut Reader<'_>, file: &mut [u8; BYTES]) -> Result<usize, Lost> {
    sample.letter(b'F')?;
    let size = sample.bounded(BYTES)?;
    changed(sample, file)?;
    Ok(size)
}
