// The reserved words, by slot.
ghost use Rattle.std.specs.Prelude.{◌≡◌, ◌-◌, ◌≤◌, length, take, drop};
ghost use Rattle.rules.specs.Kinds.{Identifier, reserved, kind_in};
ghost use Rattle.scan_words.specs.Words.{packed_of, packable};
ghost use Rattle.scan_words.specs.Slots.{held_in, spells};

use crate::words::{ABOVE_BYTE, BEFORE_LAST, Held, word_at};
use rules::kind;

// How many slots there are. A word packed is its bytes as one number, the last byte lowest; its slot is what half of that
// number leaves by so many.
const COUNT: u64 = 45;

const HALF: u64 = 2;

// What a slot holds: a word of the table, by its place there, or no word. Each place is a constant, so the compiler takes
// spelling, length and kind out of the arrays, and what is read at run time is a table beside the code, not on the stack.
fn held(slot: u64) -> Held
    ensures { result ≡ held_in reserved slot }
{
    match slot {
        2 => word_at(12), // else
        6 => word_at(3), // return
        11 => word_at(1), // section
        12 => word_at(14), // heap
        13 => word_at(19), // i32
        14 => word_at(0), // unit
        15 => word_at(9), // value
        18 => word_at(13), // guard
        19 => word_at(17), // u32
        22 => word_at(7), // type
        24 => word_at(6), // map
        28 => word_at(10), // max
        29 => word_at(8), // key
        31 => word_at(4), // reg
        33 => word_at(15), // event
        35 => word_at(16), // bytes
        36 => word_at(11), // if
        38 => word_at(20), // i64
        39 => word_at(2), // license
        41 => word_at(5), // imm
        44 => word_at(18), // u64
        _ => Held {
            spelling: 0,
            length: 0,
            kind: kind::IDENTIFIER,
        },
    }
}

// Whether the bytes of a text, from an index to another, are the first bytes of a spelling, compared where they stand.
fn same(spelling: u64, text: &[u8], at: usize, end: usize) -> bool
    requires { (at ≤ end) × (end ≤ length text.now) }
    ensures { result ≡ spells spelling (take (end - at) (drop at text.now)) }
{
    let mut left = spelling;
    for b in &text[at..end] {
        if u64::from(*b) != left / BEFORE_LAST {
            return false;
        }
        left = left % BEFORE_LAST * ABOVE_BYTE;
    }
    true
}

// The kind of a word of a text. Its first eight bytes, packed, tell a slot. If the reserved word there has as many bytes, and
// the same ones, the kind is that word's, and else an identifier's.
pub fn kind_of(packed: u64, text: &[u8], at: usize, end: usize) -> u32
    requires { ((at ≤ end) × (end ≤ length text.now))
        × (packed ≡ packed_of 0 (take packable (take (end - at) (drop at text.now)))) }
    ensures { result ≡ kind_in reserved Identifier (take (end - at) (drop at text.now)) }
{
    let word = held(packed / HALF % COUNT);
    if word.length == end - at && same(word.spelling, text, at, end) {
        return word.kind;
    }
    kind::IDENTIFIER
}
