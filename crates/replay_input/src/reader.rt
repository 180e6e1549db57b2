// The sample as it is read: decimal numbers, letters and `?`, with blanks and newlines between, and stretches of bytes as they are.
ghost use Rattle.std.specs.Prelude.{◌≤◌, IfOk};

use rules::limit;

// The sample cannot be read on.
#[derive(Clone, Copy, Debug, PartialEq, Eq)]
pub struct Lost;

// What of the sample is not read yet.
#[derive(Clone, Copy)]
pub struct Reader<'a> {
    rest: &'a [u8],
}

// Whether a byte stands between words.
fn is_blank(byte: u8) -> bool {
    matches!(byte, b' ' | b'\n')
}

impl<'a> Reader<'a> {
    // Nothing of the sample is read.
    pub fn new(sample: &'a [u8]) -> Reader<'a> {
        Reader { rest: sample }
    }

    // The next byte that is no blank is the first of the rest.
    fn pass_blanks(&mut self) {
        let end = self.rest.len();
        let blanks = self.rest.iter().position(|b| !is_blank(*b)).unwrap_or(end);
        self.rest = &self.rest[blanks..];
    }

    // How many bytes are left, blanks in front of them left out.
    pub fn left(mut self) -> u64 {
        self.pass_blanks();
        self.rest.len() as u64
    }

    // The sample's name, which must be this one.
    pub fn name(&mut self, name: &[u8]) -> Result<(), Lost> {
        self.rest = self.rest.strip_prefix(name).ok_or(Lost)?;
        Ok(())
    }

    // The next letter, which must be this one.
    pub fn letter(&mut self, byte: u8) -> Result<(), Lost> {
        self.pass_blanks();
        let (first, rest) = self.rest.split_first().ok_or(Lost)?;
        if *first != byte {
            return Err(Lost);
        }
        self.rest = rest;
        Ok(())
    }

    // The number whose digits come next: more than one of them behind a number above all words cannot be read.
    fn digits(&mut self) -> Result<u64, Lost> {
        let end = self.rest.len();
        let size = self
            .rest
            .iter()
            .position(|b| !b.is_ascii_digit())
            .unwrap_or(end);
        let (digits, rest) = self.rest.split_at(size);
        if digits.is_empty() {
            return Err(Lost);
        }
        let mut value: u64 = 0;
        for digit in digits {
            if limit::MOST_WORD < value {
                return Err(Lost);
            }
            value = value * 10 + u64::from(*digit % 16);
        }
        self.rest = rest;
        Ok(value)
    }

    // The next word: a number, or `?`, which says none.
    pub fn word(&mut self) -> Result<Option<u64>, Lost> {
        self.pass_blanks();
        if let Some((b'?', rest)) = self.rest.split_first() {
            self.rest = rest;
            return Ok(None);
        }
        Ok(Some(self.digits()?))
    }

    // The next word, which must be a number.
    pub fn count(&mut self) -> Result<u64, Lost> {
        self.word()?.ok_or(Lost)
    }

    // The next number, which must be below 2^32.
    pub fn number(&mut self) -> Result<u32, Lost> {
        u32::try_from(self.count()?).map_err(|_| Lost)
    }

    // The next number, which must be at most so much.
    pub fn bounded(&mut self, most: usize) -> Result<usize, Lost>
        ensures { IfOk result (λ n. n ≤ most) }
    {
        let n = self.number()? as usize;
        if most < n {
            return Err(Lost);
        }
        Ok(n)
    }

    // The next number, which must be a byte's.
    pub fn byte(&mut self) -> Result<u8, Lost> {
        u8::try_from(self.count()?).map_err(|_| Lost)
    }

    // The next numbers, one for each of these words.
    pub fn numbers(&mut self, words: &mut [u32]) -> Result<(), Lost> {
        for word in words.iter_mut() {
            *word = self.number()?;
        }
        Ok(())
    }

    // A letter, a number of bytes, one blank, and so many bytes.
    pub fn part(&mut self, byte: u8) -> Result<&'a [u8], Lost> {
        self.letter(byte)?;
        let size = self.number()? as usize;
        let (_, behind) = self.rest.split_first().ok_or(Lost)?;
        let (part, rest) = behind.split_at_checked(size).ok_or(Lost)?;
        self.rest = rest;
        Ok(part)
    }
}
