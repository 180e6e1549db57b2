// A text of the sample, one word for each byte.
use replay_input::reader::{Lost, Reader};

// The most bytes of a text.
pub const BYTES: usize = 4096;

// The sample's next text: how many bytes it has.
pub fn text_read(sample: &mut Reader<'_>, text: &mut [u8; BYTES]) -> Result<usize, Lost> {
    sample.letter(b'T')?;
    let size = sample.bounded(BYTES)?;
    for byte in text.iter_mut().take(size) {
        *byte = sample.byte()?;
    }
    Ok(size)
}
