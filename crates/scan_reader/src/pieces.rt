// What may stand at an index: words, comments, numbers, strings and signs, each known only where its deciding byte is shown or the bytes end the text.
ghost use Rattle.std.specs.Prelude.{◌≡◌, true, false, ◌+◌, ◌≤◌, ◌<◌, length, get_or, drop};
ghost use Rattle.rules.specs.Text.{byte};
ghost use Rattle.rules.specs.Rows.{bits_of};
ghost use Rattle.rules.specs.Lex as lex;
ghost use Rattle.scan_words.specs.Class.{Classes};
ghost use Rattle.scan_reader.specs.Brief.{settled};

use crate::{Brief, codes};
use rules::{kind, limit};
use scan_runs::{Unclosed, body_end, line_end, peek, read_digits, read_quoted, read_word, shown};
use scan_words::slots::kind_of;

// A kind or a code with a size, and no bits.
pub fn told(kind: u32, size: usize) -> Brief
    ensures { result ≡ record { size = size; kind = kind; bits = 0 } }
{
    Brief {
        size,
        kind,
        bits: 0,
    }
}

// An identifier or a reserved word.
pub fn word(classes: &[u8; 256], text: &[u8], at: usize, whole: bool) -> Brief
    requires { Classes classes.now × (at ≤ length text.now) }
    ensures { result ≡ settled whole text.now at (lex.word (drop at text.now)) }
{
    let w = read_word(classes, text, at);
    let end = w.end;
    if !shown(text, end, whole) {
        return told(codes::UNKNOWN, 0);
    }
    told(kind_of(w.packed, text, at, end), end - at)
}

// A number's bits in two's complement.
fn bits_of(negative: bool, value: u64) -> u64
    ensures { result ≡ bits_of negative value }
{
    if negative {
        if value == 0 {
            return 0;
        }
        return limit::ALL_BITS - value + 1;
    }
    value
}

// A number of which m bytes, its sign, are behind the index.
pub fn number(text: &[u8], at: usize, m: usize, negative: bool, whole: bool) -> Brief
    requires { (at + m < length text.now) × (lex.is_digit (get_or text.now (at + m) 0) ≡ true) }
    ensures { result ≡ settled whole text.now at (lex.number negative m (drop m (drop at text.now))) }
{
    let hex = (peek(text, at + m) == b'0') & (peek(text, at + m + 1) == b'x');
    let from = if hex { at + m + 2 } else { at + m };
    let digits = read_digits(text, from, hex);
    let end = digits.end;
    let value = digits.value;
    if !shown(text, end, whole) {
        return told(codes::UNKNOWN, 0);
    }
    if end == from {
        return told(codes::NO_HEX_DIGIT, from - at);
    }
    if limit::LARGEST < value {
        return told(codes::NUMBER_TOO_LARGE, 0);
    }
    Brief {
        size: end - at,
        kind: kind::NUMBER,
        bits: bits_of(negative, value),
    }
}

// A sign that may be the first byte of two. A lone `<` or `>` is refused.
pub fn sign(text: &[u8], at: usize, whole: bool) -> Brief
    requires { (at < length text.now) × (lex.maybe_two (get_or text.now at 0) ≡ true) }
    ensures { result ≡ settled whole text.now at (lex.sign (drop at text.now)) }
{
    let next = at + 1;
    if !shown(text, next, whole) {
        return told(codes::UNKNOWN, 0);
    }
    let b = text[at];
    if let Some(kind) = scan_words::two_sign(b, peek(text, next)) {
        return told(kind, 2);
    }
    if (b == b'<') | (b == b'>') {
        return told(codes::LONE_SIGN, 0);
    }
    told(scan_words::one_sign(b), 1)
}

// A number with no sign: a call of its own, so that its answer lies on the stack where those of `slash` and `dash` lie, not beside them.
pub fn plain_number(text: &[u8], at: usize, whole: bool) -> Brief
    requires { (at < length text.now) × (lex.is_digit (get_or text.now at 0) ≡ true) }
    ensures { result ≡ settled whole text.now at (lex.number false 0 (drop at text.now)) }
{
    number(text, at, 0, false, whole)
}

// A comment to the newline, which is taken with it, or to the end.
fn line_comment(text: &[u8], at: usize, whole: bool) -> Brief
    requires { (at ≤ length text.now) × (get_or text.now (at + 1) 0 ≡ byte "/") }
    ensures { result ≡ settled whole text.now at (lex.line_comment (drop at text.now)) }
{
    let end = line_end(text, at);
    if end < text.len() {
        return told(codes::LINE, end + 1 - at);
    }
    if whole {
        return told(codes::LINE, end - at);
    }
    told(codes::UNKNOWN, 0)
}

// A comment to the next closing bytes behind its two opening ones.
fn block_comment(text: &[u8], at: usize, whole: bool) -> Brief
    requires { (at + 2 ≤ length text.now) × (get_or text.now (at + 1) 0 ≡ byte "*") }
    ensures { result ≡ settled whole text.now at (lex.block_comment (drop at text.now)) }
{
    let end = body_end(text, at + 2);
    if end < text.len() {
        return told(codes::BLOCK, end + 2 - at);
    }
    if whole {
        return told(codes::OPEN_COMMENT, 2);
    }
    told(codes::UNKNOWN, 0)
}

// A comment or a sign.
pub fn slash(text: &[u8], at: usize, whole: bool) -> Brief
    requires { (at < length text.now) × (get_or text.now at 0 ≡ byte "/") }
    ensures { result ≡ settled whole text.now at (lex.slashed (drop at text.now)) }
{
    let next = peek(text, at + 1);
    if next == b'/' {
        return line_comment(text, at, whole);
    }
    if next == b'*' {
        return block_comment(text, at, whole);
    }
    sign(text, at, whole)
}

// A negative number or a sign.
pub fn dash(text: &[u8], at: usize, whole: bool) -> Brief
    requires { (at < length text.now) × (get_or text.now at 0 ≡ byte "-") }
    ensures { result ≡ settled whole text.now at (lex.dashed (drop at text.now)) }
{
    if scan_words::is_digit(peek(text, at + 1)) {
        return number(text, at, 1, true, whole);
    }
    sign(text, at, whole)
}

// A string.
pub fn string(text: &[u8], at: usize, whole: bool) -> Brief
    requires { (at < length text.now) × (get_or text.now at 0 ≡ byte "\"") }
    ensures { result ≡ settled whole text.now at (lex.string false 1 (drop 1 (drop at text.now))) }
{
    match read_quoted(text, at + 1) {
        Ok(e) => told(kind::STRING, e + 1 - at),
        Err(Unclosed::Open(e)) if shown(text, e, whole) => told(codes::OPEN_STRING, e - at),
        Err(Unclosed::Open(_)) => told(codes::UNKNOWN, 0),
        Err(Unclosed::Escape(e)) => told(codes::BAD_ESCAPE, e - at),
    }
}
