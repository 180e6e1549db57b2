// One block of a stored table: its numbers, whether it is sound, its rows, and the writing of it.
#![tactic(auto)]

ghost use Rattle.std.specs.Prelude.{◌≡◌, ◌++◌, ◌+◌, ◌-◌, ◌*◌, ◌≤◌, min, length, take, drop, replicate};
ghost use Rattle.rules.specs.Text.{most_bytes};
ghost use Rattle.rows.specs.Shape.{LengthTable, as_row};
ghost use Rattle.rules_files.specs.Bytes.{little, number_at, bytes_of, words_in};
ghost use Rattle.rules_files.specs.Blocks.{content_of, block, sound, block_bytes, checked_bytes, content_room};
ghost use Rattle.rules_forms.specs.declared.Form.TheVariants.{Full, Short};
ghost use Rattle.rules_forms.specs.Shapes.{row_bytes_of};
ghost use Rattle.file_blocks.specs.Standing.{row_from, rows_from, stand};

use file_check::{check_of, is_filler};
use rows::shape::Row;
use rules::{kind, limit, row};
use rules_files::form;
use rules_forms::{Form, short};

// ---- numbers

// The number in two bytes.
fn half_at(bytes: &[u8], at: usize) -> u32
    requires { at + 2 ≤ length bytes.now }
    ensures { result ≡ number_at 2 at bytes.now }
{
    u32::from(u16::from_le_bytes([bytes[at], bytes[at + 1]]))
}

// The number in four bytes.
pub fn word_at(bytes: &[u8], at: usize) -> u32
    requires { at + 4 ≤ length bytes.now }
    ensures { result ≡ number_at 4 at bytes.now }
{
    u32::from_le_bytes([bytes[at], bytes[at + 1], bytes[at + 2], bytes[at + 3]])
}

// A number into two bytes.
fn put_half(bytes: &mut [u8], at: usize, x: u32)
    requires { at + 2 ≤ length bytes.old }
    ensures { bytes.new ≡ (take at bytes.old ++ little 2 x) ++ drop (at + 2) bytes.old }
{
    for (k, byte) in x.to_le_bytes()[..2].iter().enumerate() {
        bytes[at + k] = *byte;
    }
}

// A number into four bytes.
pub fn put_word(bytes: &mut [u8], at: usize, x: u32)
    requires { at + 4 ≤ length bytes.old }
    ensures { bytes.new ≡ (take at bytes.old ++ little 4 x) ++ drop (at + 4) bytes.old }
{
    for (k, byte) in x.to_le_bytes().iter().enumerate() {
        bytes[at + k] = *byte;
    }
}

// ---- whether a block is sound

// Whether a block is sound: block k of n rows, with so many bytes of content.
pub fn is_sound(bytes: &[u8], k: u32, n: u32, size: usize) -> bool
    requires { (length bytes.now ≡ block_bytes) × (size ≤ content_room) }
    ensures { result ≡ sound k n size bytes.now }
{
    if half_at(bytes, 0) != k {
        return false;
    }
    if half_at(bytes, 2) != n {
        return false;
    }
    if !is_filler(bytes, form::CONTENT + size) {
        return false;
    }
    word_at(bytes, form::CHECKED) == check_of(bytes)
}

// ---- rows

// The row whose bytes start at one.
fn row_at(bytes: &[u8], at: usize) -> Row
    requires { at + 32 ≤ length bytes.now }
    ensures { as_row result ≡ row_from Full (drop at bytes.now) }
{
    Row {
        kind: word_at(bytes, at),
        start: word_at(bytes, at + form::WORD * row::START),
        end: word_at(bytes, at + form::WORD * row::END),
        line: word_at(bytes, at + form::WORD * row::LINE),
        column: word_at(bytes, at + form::WORD * row::COLUMN),
        low: word_at(bytes, at + form::WORD * row::LOW),
        high: word_at(bytes, at + form::WORD * row::HIGH),
        comments: word_at(bytes, at + form::WORD * row::COMMENTS),
    }
}

// The column of an offset in a text of one line.
pub fn column_of(offset: u32) -> u32
    ensures { result ≡ 1 + min offset most_bytes }
{
    1 + offset.min(limit::MOST_BYTES_U32)
}

// The row without line and column whose bytes start at one, as it stands in a text of one line.
fn short_row_at(bytes: &[u8], at: usize) -> Row
    requires { at + 24 ≤ length bytes.now }
    ensures { as_row result ≡ row_from Short (drop at bytes.now) }
{
    let start = word_at(bytes, at + form::WORD * row::START);
    Row {
        kind: word_at(bytes, at),
        start,
        end: word_at(bytes, at + form::WORD * row::END),
        line: 1,
        column: column_of(start),
        low: word_at(bytes, at + form::WORD * short::LOW),
        high: word_at(bytes, at + form::WORD * short::HIGH),
        comments: word_at(bytes, at + form::WORD * short::COMMENTS),
    }
}

// Row i of a block of a form.
pub fn row_in(form: Form, bytes: &[u8], i: usize) -> Row
    requires { 4 + row_bytes_of form * i + row_bytes_of form ≤ length bytes.now }
    ensures { as_row result ≡ row_from form (drop (4 + row_bytes_of form * i) bytes.now) }
{
    match form {
        Form::Full => row_at(bytes, form::CONTENT + form::ROW * i),
        Form::Short => short_row_at(bytes, form::CONTENT + short::ROW * i),
    }
}

// Whether the first n rows of a block fit behind a row and one behind the other, none of them Eof.
pub fn rows_stand(
    least: &[u32; kind::KINDS],
    span: &[u32; kind::KINDS],
    form: Form,
    bytes: &[u8],
    n: usize,
    before: Row,
) -> bool
    requires { (4 + row_bytes_of form * n ≤ length bytes.now) × LengthTable least.now span.now }
    ensures { result ≡ stand (as_row before) (rows_from form n (drop 4 bytes.now)) }
{
    let mut last = before;
    for i in 0..n {
        let r = row_in(form, bytes, i);
        if !r.stands_on(least, span, last) {
            return false;
        }
        last = r;
    }
    true
}

// The first n words of a block's content into the first lent words.
pub fn take_words(bytes: &[u8], n: usize, words: &mut [u32])
    requires { (4 + 4 * n ≤ length bytes.now) × (n ≤ length words.old) }
    ensures { words.new ≡ words_in n (drop 4 bytes.now) ++ drop n words.old }
{
    for (i, word) in words[..n].iter_mut().enumerate() {
        *word = word_at(bytes, form::CONTENT + form::WORD * i);
    }
}

// ---- a block written

// Words for a content.
fn put_words(bytes: &mut [u8], words: &[u32])
    requires { 4 + 4 * length words.now ≤ length bytes.old }
    ensures { bytes.new
        ≡ (take 4 bytes.old ++ bytes_of words.now) ++ drop
        (4 + 4 * length words.now) bytes.old }
{
    for (i, word) in words.iter().enumerate() {
        put_word(bytes, form::CONTENT + form::WORD * i, *word);
    }
}

// Zeros from a byte on to the check.
fn put_filler(bytes: &mut [u8], from: usize)
    requires { (from ≤ checked_bytes) × (checked_bytes ≤ length bytes.old) }
    ensures { bytes.new
        ≡ (take from bytes.old ++ replicate (checked_bytes - from) 0) ++ drop checked_bytes bytes.old }
{
    bytes[from..form::CHECKED].fill(0);
}

// A block whose content stands in it already: its numbers, filler and check are written.
pub fn seal(bytes: &mut [u8], k: u32, n: u32, size: usize)
    requires { (length bytes.old ≡ block_bytes) × (size ≤ content_room) }
    ensures { bytes.new ≡ block k n (content_of size bytes.old) }
{
    put_half(bytes, 0, k);
    put_half(bytes, 2, n);
    put_filler(bytes, form::CONTENT + size);
    let sum = check_of(bytes);
    put_word(bytes, form::CHECKED, sum);
}

// Block k of n rows, with some words for content.
pub fn put_block(bytes: &mut [u8], k: u32, n: u32, words: &[u32])
    requires { (length bytes.old ≡ block_bytes) × (4 * length words.now ≤ content_room) }
    ensures { bytes.new ≡ block k n (bytes_of words.now) }
{
    put_words(bytes, words);
    seal(bytes, k, n, form::WORD * words.len());
}
