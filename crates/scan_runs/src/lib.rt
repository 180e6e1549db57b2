// Leaves over the lent bytes and an index into them: where runs end, what digits are worth, and how a string closes.
#![tactic(auto)]

ghost use Rattle.std.specs.Prelude.{◌≡◌, ◌||◌, ◌+◌, ◌*◌, ◌≤◌, ◌<◌, length, get_or, drop, ltb, false, MatchOption};
ghost use Rattle.rules.specs.Text.{front, not_newline};
ghost use Rattle.rules.specs.Lex.{is_escape, before_close};
ghost use Rattle.scan_words.specs.Class.{Classes};
ghost use Rattle.scan_runs.specs.Leaf.{word_of, digit_of, base_of, clipped, digits_of, quoted_from};

use rules::limit;
use scan_eights::word_end;
use scan_words::classes;
use scan_words::words::{ABOVE_BYTE, BEFORE_LAST};

// The byte at an index, and 0 behind the end, as the rules read it, to whom 0 is in no sign, comment or number.
pub fn peek(text: &[u8], at: usize) -> u8
    ensures { result ≡ get_or text.now at 0 }
{
    if at < text.len() { text[at] } else { 0 }
}

// Whether the byte at an index is shown, or the text ends with the bytes.
pub fn shown(text: &[u8], at: usize, whole: bool) -> bool
    ensures { result ≡ (whole || ltb at (length text.now)) }
{
    whole || at < text.len()
}

// A word: where it ends, and its first eight bytes at most, packed into one number, which tells its slot.
#[derive(Clone, Copy)]
pub struct Word {
    pub end: usize,
    pub packed: u64,
}

// So many bytes of a word are read one by one and packed; where it goes on, no reserved word is as long.
const EIGHT: usize = 8;

// The letters, digits and underscores from an index on.
pub fn read_word(classes: &[u8; 256], text: &[u8], at: usize) -> Word
    requires { Classes classes.now × (at ≤ length text.now) }
    ensures { result ≡ word_of at (drop at text.now) }
{
    let mut packed: u64 = 0;
    for i in at..text.len() {
        let b = text[i];
        let class = classes[b as usize];
        if classes::DIGIT < class {
            return Word { end: i, packed };
        }
        packed = packed % BEFORE_LAST * ABOVE_BYTE + b as u64;
        let next = i + 1;
        if next - at == EIGHT {
            return Word {
                end: word_end(classes, text, next),
                packed,
            };
        }
    }
    Word {
        end: text.len(),
        packed,
    }
}

// So many bytes are looked at together.
const BLOCK: usize = 16;

// Whether one of some bytes is a newline.
fn ends_line(bytes: &[u8]) -> bool
    ensures { result ≡ ltb (front not_newline bytes.now) (length bytes.now) }
{
    let mut found = false;
    for b in bytes {
        found |= *b == b'\n';
    }
    found
}

// An index behind blocks of bytes that are no newline, from an index on.
fn past_blocks(text: &[u8], at: usize) -> usize
    requires { at ≤ length text.now }
    ensures { (at ≤ result) × (result ≤ at + front not_newline (drop at text.now)) }
{
    let mut i = at;
    for bytes in text[at..].chunks_exact(BLOCK) {
        if ends_line(bytes) {
            return i;
        }
        i += BLOCK;
    }
    i
}

// Where the line ends: at its newline, or with the bytes.
pub fn line_end(text: &[u8], at: usize) -> usize
    requires { at ≤ length text.now }
    ensures { result ≡ at + front not_newline (drop at text.now) }
{
    let from = past_blocks(text, at);
    for i in from..text.len() {
        if text[i] == b'\n' {
            return i;
        }
    }
    text.len()
}

// Where a comment's body ends: at its two closing bytes, or with the bytes.
pub fn body_end(text: &[u8], at: usize) -> usize
    requires { at ≤ length text.now }
    ensures { result ≡ at + before_close (drop at text.now) }
{
    let mut i = at;
    // Stays a while loop: a for has the next index at hand in each turn, `peek` asks for it too, and with the two made one a block comment
    // took 1.38 times as long.
    while i < text.len() {
        if text[i] == b'*' && peek(text, i + 1) == b'/' {
            return i;
        }
        i += 1;
    }
    i
}

// What a digit of a run is worth: behind `0`, `A` and `a` the bytes count on, from 0 and from ten.
const UPPER: u8 = b'A' - 10;

const LOWER: u8 = b'a' - 10;

// What a byte is worth as a digit in hex or in decimal, if it is one: where the base is known, its own ranges alone are tested.
fn digit_of(b: u8, hex: bool) -> Option<u8>
    ensures { MatchOption result (base_of hex ≤ digit_of b) (λ d. (d ≡ digit_of b) × (d < base_of hex)) }
{
    match b {
        b'0'..=b'9' => Some(b - b'0'),
        b'A'..=b'F' if hex => Some(b - UPPER),
        b'a'..=b'f' if hex => Some(b - LOWER),
        _ => None,
    }
}

// The largest numbers that one digit more, in hex or in decimal, may leave within the limit.
const MOST_BEFORE_HEX: u64 = limit::LARGEST / 16;

const MOST_BEFORE_DECIMAL: u64 = limit::LARGEST / 10;

// What digits spell with one digit more, as far as it is told apart.
fn longer(value: u64, digit: u8, hex: bool) -> u64
    requires { digit < base_of hex }
    ensures { result ≡ clipped (value * base_of hex + digit) }
{
    let d = digit as u64;
    if hex {
        if MOST_BEFORE_HEX < value {
            return limit::SIGN_BIT;
        }
        return value * 16 + d;
    }
    if MOST_BEFORE_DECIMAL < value {
        return limit::SIGN_BIT;
    }
    let next = value * 10 + d;
    if limit::LARGEST < next {
        return limit::SIGN_BIT;
    }
    next
}

// A run of digits: where it ends, and what it spells.
#[derive(Clone, Copy)]
pub struct Digits {
    pub end: usize,
    pub value: u64,
}

// The digits from an index on. Those that spell too large a number are read to their end.
fn digits_in(text: &[u8], at: usize, hex: bool) -> Digits
    requires { at ≤ length text.now }
    ensures { result ≡ digits_of hex at (drop at text.now) }
{
    let mut value: u64 = 0;
    for i in at..text.len() {
        match digit_of(text[i], hex) {
            Some(digit) => value = longer(value, digit, hex),
            None => return Digits { end: i, value },
        }
    }
    Digits {
        end: text.len(),
        value,
    }
}

// The digits from an index on: by one branch for each base, so that the compiler makes a loop for each.
pub fn read_digits(text: &[u8], at: usize, hex: bool) -> Digits
    requires { at ≤ length text.now }
    ensures { result ≡ digits_of hex at (drop at text.now) }
{
    if hex {
        digits_in(text, at, true)
    } else {
        digits_in(text, at, false)
    }
}

// Whether a byte may follow a backslash.
#[tactic(auto, unfolding(rules::specs::Lex::is_escape))]
fn escapes(b: u8) -> bool
    ensures { result ≡ is_escape b }
{
    matches!(b, b'"' | b'\\' | b'n')
}

// Why a string is not closed: it is open at a newline or the end, or a backslash escapes nothing.
#[derive(Clone, Copy)]
pub enum Unclosed {
    Open(usize),
    Escape(usize),
}

// The index of the quote that closes the string whose opening quote stands before an index.
pub fn read_quoted(text: &[u8], at: usize) -> Result<usize, Unclosed>
    requires { at ≤ length text.now }
    ensures { result ≡ quoted_from false at (drop at text.now) }
{
    // Stays a while loop: behind a backslash a turn steps over two bytes, and a for has no such step.
    let mut i = at;
    while i < text.len() {
        match text[i] {
            b'"' => return Ok(i),
            b'\n' => return Err(Unclosed::Open(i)),
            b'\\' => {
                let next = i + 1;
                if text.len() <= next {
                    return Err(Unclosed::Open(next));
                }
                if !escapes(text[next]) {
                    return Err(Unclosed::Escape(i));
                }
                i = next + 1;
            }
            _ => i += 1,
        }
    }
    Err(Unclosed::Open(i))
}
