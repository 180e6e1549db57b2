// Characters by RFC 3629's table: the one that stands at an index of a text, whole or cut by the text's end.
#![tactic(auto)]

ghost use Rattle.std.specs.Prelude.{◌≡◌, min, ◌≤◌, ◌<◌, length, get_or, drop, MatchOption};
ghost use Rattle.rules.specs.Text.{front, is_tail, met, line_of, char_at, is_cut};
ghost use Rattle.scan_chars.specs.Lines.{second};

// The first byte that is no character by itself.
pub const FIRST_HIGH: u8 = 0x80;

// The first bytes of characters of two, of three and of four bytes, and what is above them all.
const FIRST_TWO: u8 = 0xC2;

const FIRST_THREE: u8 = 0xE0;

const FIRST_FOUR: u8 = 0xF0;

const ABOVE_FOUR: u8 = 0xF5;

// The bytes behind a first one.
const TAIL_LOW: u8 = 0x80;

const TAIL_HIGH: u8 = 0xBF;

// First bytes behind which fewer second ones may stand, from a higher one on or up to a lower one: what is left out are overlong forms,
// surrogates, and what is above U+10FFFF.
const SURROGATE: u8 = 0xED;

const LAST_FOUR: u8 = 0xF4;

const LOW_THREE: u8 = 0xA0;

const LOW_FOUR: u8 = 0x90;

const HIGH_SURROGATE: u8 = 0x9F;

const HIGH_FOUR: u8 = 0x8F;

// How many bytes a character has that begins with b, if one does.
fn line_bytes(b: u8) -> Option<usize>
    ensures { MatchOption result (length (line_of b) ≡ 0) (λ n. (n ≡ length (line_of b)) × (0 < n)) }
{
    match b {
        ..FIRST_HIGH => Some(1),
        FIRST_TWO..FIRST_THREE => Some(2),
        FIRST_THREE..FIRST_FOUR => Some(3),
        FIRST_FOUR..ABOVE_FOUR => Some(4),
        _ => None,
    }
}

// Whether a byte may stand behind a first one.
fn is_tail(b: u8) -> bool
    ensures { result ≡ is_tail b }
{
    matches!(b, TAIL_LOW..=TAIL_HIGH)
}

// The least and the greatest byte that may stand second in a character of several bytes that begins with b.
fn second(b: u8) -> (u8, u8)
    ensures low { result.0 ≡ (second (line_of b)).lo }
    ensures high { result.1 ≡ (second (line_of b)).hi }
{
    match b {
        FIRST_THREE => (LOW_THREE, TAIL_HIGH),
        SURROGATE => (TAIL_LOW, HIGH_SURROGATE),
        FIRST_FOUR => (LOW_FOUR, TAIL_HIGH),
        LAST_FOUR => (TAIL_LOW, HIGH_FOUR),
        _ => (TAIL_LOW, TAIL_HIGH),
    }
}

// How many tails stand from an index on, n at most.
fn tails(text: &[u8], from: usize, n: usize) -> usize
    requires { (from ≤ length text.now) × (n ≤ 2) }
    ensures { result ≡ min n (front is_tail (drop from text.now)) }
{
    let left = text.len() - from;
    for k in 0..n {
        if left <= k || !is_tail(text[from + k]) {
            return k;
        }
    }
    n
}

// How many bytes from an index on lie in the line of n bytes that the one there begins.
fn met_at(text: &[u8], i: usize, n: usize) -> usize
    requires { (i < length text.now) × (n ≡ length (line_of (get_or text.now i 0))) }
    ensures { result ≡ met (line_of (get_or text.now i 0)) (drop i text.now) }
{
    if n <= 1 {
        return n;
    }
    if text.len() - i == 1 {
        return 1;
    }
    let (low, high) = second(text[i]);
    let c = text[i + 1];
    if c < low || high < c {
        return 1;
    }
    2 + tails(text, i + 2, n - 2)
}

// How many bytes the character at an index has, if one stands there.
pub fn char_at(text: &[u8], i: usize) -> Option<usize>
    requires { i < length text.now }
    ensures { MatchOption result (char_at (drop i text.now) ≡ 0) (λ n. (n ≡ char_at (drop i text.now)) × (0 < n)) }
{
    let n = line_bytes(text[i])?;
    (met_at(text, i, n) == n).then_some(n)
}

// Whether the bytes from an index on are a proper beginning of some character.
pub fn is_cut(text: &[u8], i: usize) -> bool
    requires { i ≤ length text.now }
    ensures { result ≡ is_cut (drop i text.now) }
{
    let left = text.len() - i;
    if left == 0 {
        return true;
    }
    match line_bytes(text[i]) {
        Some(n) if left < n => met_at(text, i, n) == left,
        _ => false,
    }
}
