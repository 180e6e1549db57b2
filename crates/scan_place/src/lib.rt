// Places in a text: how far its bytes are valid, the cursor behind some of them, and what a text is told before it is read.
#![tactic(auto)]

ghost use Rattle.std.specs.Prelude.{◌≡◌, ℕ, ◌≤◌, ◌<◌, length, get_or, take};
ghost use Rattle.rules.specs.Text.{valid_bytes, over, text_judged, Roomy};
ghost use Rattle.rules.specs.Edit.{window_bytes};
ghost use Rattle.scan_place.specs.Passed.{Passed};

use rules::{Cursor, Outer, Unfit, limit};
use scan_chars::{FIRST_HIGH, char_at, is_cut};

// A number that no byte is above.
fn highest(text: &[u8]) -> u8
    ensures { (k : ℕ) → k < length text.now → get_or text.now k 0 ≤ result }
{
    let mut most = 0;
    for b in text {
        most = most.max(*b);
    }
    most
}

// So many bytes are looked at together.
const BLOCK: usize = 32;

// An index behind blocks of bytes below 128, from an index on.
fn low_blocks(text: &[u8], from: usize) -> usize
    requires { from ≤ length text.now }
    ensures { Passed text.now from result }
{
    let mut i = from;
    for block in text[from..].chunks_exact(BLOCK) {
        if FIRST_HIGH <= block[0] || FIRST_HIGH <= highest(block) {
            return i;
        }
        i += BLOCK;
    }
    i
}

// Where the bytes below 128 end, from an index on.
fn low_end(text: &[u8], from: usize) -> usize
    requires { from ≤ length text.now }
    ensures { Passed text.now from result }
{
    let behind = low_blocks(text, from);
    for i in behind..text.len() {
        if FIRST_HIGH <= text[i] {
            return i;
        }
    }
    text.len()
}

// How long a text's longest valid beginning is.
pub fn valid_bytes(text: &[u8]) -> usize
    ensures { result ≡ valid_bytes text.now }
{
    if highest(text) < FIRST_HIGH {
        return text.len();
    }
    let mut i = 0;
    // Stays a while loop: each turn steps by what `low_end` or `char_at` has read, and a for has no such step.
    while i < text.len() {
        if text[i] < FIRST_HIGH {
            i = low_end(text, i + 1);
        } else {
            let Some(n) = char_at(text, i) else {
                return i;
            };
            i += n;
        }
    }
    i
}

// How far a window is valid: a character that its end cuts is not held against it, unless it ends the text.
pub fn window_bytes(window: &[u8], whole: bool) -> usize
    ensures { result ≡ window_bytes whole window.now }
{
    let valid = valid_bytes(window);
    if !whole && is_cut(window, valid) {
        return window.len();
    }
    valid
}

// The cursor behind the first n bytes, from the cursor before them.
pub fn pass(text: &[u8], from: Cursor, n: usize) -> Cursor
    requires { (n ≤ length text.now) × Roomy n from }
    ensures { result ≡ over from (take n text.now) }
{
    let mut here = from;
    for b in &text[..n] {
        here = here.advance(*b);
    }
    here
}

// What every call over a text is told first: 1, then 2 at its place, or that all is well.
pub fn judge_text(text: &[u8]) -> Result<(), Unfit>
    ensures { result ≡ text_judged text.now }
{
    let start = Cursor::start();
    if limit::MOST_BYTES < text.len() {
        return Err(Unfit {
            why: Outer::TextTooLong,
            at: start,
        });
    }
    let valid = valid_bytes(text);
    if valid < text.len() {
        return Err(Unfit {
            why: Outer::BadByte,
            at: pass(text, start, valid),
        });
    }
    Ok(())
}
