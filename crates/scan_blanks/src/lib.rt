// Blanks that are passed over: newlines in a row, the indentation of a line four spaces at a time, and all others one by one.
#![tactic(auto)]

ghost use Rattle.std.specs.Prelude.{◌≡◌, ◌+◌, ◌≤◌, length, drop};
ghost use Rattle.rules.specs.Text.{is_blank};
ghost use Rattle.scan_reader.specs.Read.{onward, Ahead};
ghost use Rattle.scan_blanks.specs.Blanks.{blanks, Blanked, Four};

use scan_reader::Spot;

// Whether a byte is one of the six blanks: 9 to 13, and 32.
#[tactic(auto, unfolding(rules::specs::Text::is_blank))]
pub fn is_blank(b: u8) -> bool
    ensures { result ≡ is_blank b }
{
    matches!(b, b'\t'..=b'\r' | b' ')
}

// A byte as a wider number.
fn wide(b: u8) -> u32
    ensures { (result ≡ b) × (result ≤ 255) }
{
    b as u32
}

// Four spaces as one number.
const FOUR_SPACES: u32 = 0x20202020;

// Four bytes as one number.
fn four(bytes: &[u8]) -> u32
    requires { length bytes.now ≡ 4 }
    ensures { Four bytes.now 0 result }
{
    (wide(bytes[0]) + wide(bytes[1]) * 256) + (wide(bytes[2]) * 65536 + wide(bytes[3]) * 16777216)
}

// The spot behind newlines at a spot.
fn past_newlines(text: &[u8], from: Spot) -> Spot
    requires { Ahead text.now from }
    ensures { Blanked text.now from result }
{
    let mut cursor = from.cursor;
    for i in from.at..text.len() {
        if text[i] != b'\n' {
            return Spot { at: i, cursor };
        }
        cursor = cursor.advance(b'\n');
    }
    Spot {
        at: text.len(),
        cursor,
    }
}

// The spot behind spaces at a spot, four at a time.
fn past_indent(text: &[u8], from: Spot) -> Spot
    requires { Ahead text.now from }
    ensures { Blanked text.now from result }
{
    let mut here = from;
    for bytes in text[from.at..].chunks_exact(4) {
        if four(bytes) != FOUR_SPACES {
            return here;
        }
        let cursor = here.cursor.onward(4);
        here = Spot {
            at: here.at + 4,
            cursor,
        };
    }
    here
}

// The spot behind newlines at a spot, and behind the indentation of the line there.
fn past_margin(text: &[u8], from: Spot) -> Spot
    requires { Ahead text.now from }
    ensures { Blanked text.now from result }
{
    past_indent(text, past_newlines(text, from))
}

// The spot behind the blanks at a spot.
pub fn past_blanks(text: &[u8], from: Spot) -> Spot
    requires { Ahead text.now from }
    ensures { result ≡ onward text.now from (blanks (drop from.at text.now)) }
{
    let mut here = from;
    // Stays a while loop: behind a newline a turn steps by what `past_margin` has passed, and a for has no such step.
    while here.at < text.len() {
        let b = text[here.at];
        if !is_blank(b) {
            return here;
        }
        let cursor = here.cursor.advance(b);
        let next = Spot {
            at: here.at + 1,
            cursor,
        };
        here = if b == b'\n' {
            past_margin(text, next)
        } else {
            next
        };
    }
    here
}
