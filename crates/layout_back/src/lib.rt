// Bytes written from the last to the first, each in front of a place that falls. Past the room nothing is written, so that the same walk
// measures and writes.
#![tactic(auto)]

ghost use Rattle.std.specs.Prelude.{◌≡◌, List, [], ◌∷◌, ◌++◌, ℕ, ◌≤◌};
ghost use Rattle.rules_decimal.specs.Decimal.{decimal, signed};
ghost use Rattle.layout_back.specs.Back.{Wrote};
ghost use Rattle.layout_back.specs.Words.{word_of, number_of, SpelledAs};

use rules::row;

// The first of 64 bits, which says that a number is below 0.
const SIGN: u64 = 1 << 63;

// What a layout is written from: a text, the words of its rows, and those of the nodes of its program.
#[derive(Clone, Copy)]
pub struct Source<'a> {
    pub text: &'a [u8],
    pub rows: &'a [u32],
    pub nodes: &'a [u32],
}

// Word k of the i-th eight words, or 0 past the last.
// Stays a test and a read: `get` gives a byte with a pointer, and the module for browsers is made for pointers of another size.
#[tactic(auto, unfolding(crate::specs::Words::word_of))]
pub fn word(words: &[u32], i: u32, k: usize) -> u32
    requires { k ≤ 7 }
    ensures { result ≡ word_of words.now i k }
{
    let at = i as usize * 8 + k;
    if words.len() <= at {
        return 0;
    }
    words[at]
}

// A byte in front of a place.
// Stays `room` with `at` beside it: a struct that held the `&mut` would ask each of the functions above for a clause on its ghost name.
#[tactic(auto, using(crate::proofs::Back::put_none, crate::proofs::Back::put_out, crate::proofs::Back::put_in))]
pub fn put(room: &mut [u8], at: usize, b: u8) -> usize
    ensures { Wrote (b ∷ []) room.old at room.new result }
{
    if at == 0 {
        return 0;
    }
    if at <= room.len() {
        room[at - 1] = b;
    }
    at - 1
}

// Bytes that end at a place.
#[tactic(auto, using(crate::proofs::Back::bytes_begin, crate::proofs::Back::bytes_all))]
pub fn bytes(text: &[u8], room: &mut [u8], at: usize) -> usize
    ensures { Wrote text.now room.old at room.new result }
{
    let mut to = at;
    for i in (0..text.len()).rev() {
        to = put(room, to, text[i]);
    }
    to
}

// A number in decimal.
// Stays a while loop: each turn divides what is left, and a for has no such step.
#[tactic(auto, using(crate::proofs::Back::counting_none, crate::proofs::Back::counting_on))]
pub fn decimal(number: u64, room: &mut [u8], at: usize) -> usize
    ensures { Wrote (decimal number) room.old at room.new result }
{
    let mut left = number;
    let mut to = at;
    while 10 <= left {
        to = put(room, to, b'0' + (left % 10) as u8);
        left /= 10;
    }
    put(room, to, b'0' + left as u8)
}

// 64 bits as a number with its sign.
pub fn signed(bits: u64, room: &mut [u8], at: usize) -> usize
    ensures { Wrote (signed bits) room.old at room.new result }
{
    if bits < SIGN {
        return decimal(bits, room, at);
    }
    let to = decimal(u64::MAX - bits + 1, room, at);
    put(room, to, b'-')
}

// The number of two words, low and high, and a blank.
pub fn number(low: u32, high: u32, room: &mut [u8], at: usize) -> usize
    ensures { Wrote (signed (number_of low high) ++ (32 ∷ [])) room.old at room.new result }
{
    let to = put(room, at, b' ');
    signed(u64::from(high) * (1 << 32) + u64::from(low), room, to)
}

// What a row spells, and a blank.
pub fn name(source: &Source<'_>, row: u32, room: &mut [u8], at: usize) -> usize
    ensures { (w : List ℕ) → SpelledAs source.now.text.now source.now.rows.now row w → Wrote (w ++ (32 ∷ []))
        room.old at room.new result }
{
    let start = word(source.rows, row, row::START) as usize;
    let end = word(source.rows, row, row::END) as usize;
    let to = put(room, at, b' ');
    match source.text.get(start..end) {
        Some(spelling) => bytes(spelling, room, to),
        None => to,
    }
}
