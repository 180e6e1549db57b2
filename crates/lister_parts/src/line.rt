// Bytes, numbers and words, written at `at` behind whatever was written before, as far as `out` goes. Each function hands back where what it
// wrote ends.
ghost use Rattle.std.specs.Prelude.{◌+◌, ◌*◌, ◌^◌, [], ◌∷◌, ◌++◌};
ghost use Rattle.lister_parts.specs.Adds.{Adds};
ghost use Rattle.rules.specs.Text.{bytes as Text·bytes};
ghost use Rattle.rules_decimal.specs.Decimal.{decimal, signed};
ghost use Rattle.lister_parts.specs.Parts.{spaced};

use itoa::Buffer;

// A byte.
pub fn put(out: &mut [u8], at: usize, byte: u8) -> usize
    ensures { Adds (byte ∷ []) out.old at out.new result }
{
    if at < out.len() {
        out[at] = byte;
        return at + 1;
    }
    at
}

// The bytes of a text.
pub fn bytes(out: &mut [u8], at: usize, text: &[u8]) -> usize
    ensures { Adds text.now out.old at out.new result }
{
    let mut at = at;
    for byte in text {
        at = put(out, at, *byte);
    }
    at
}

// A number in decimal.
pub fn number(out: &mut [u8], at: usize, n: u64) -> usize
    ensures { Adds (decimal n) out.old at out.new result }
{
    let mut digits = Buffer::new();
    bytes(out, at, digits.format(n).as_bytes())
}

// A blank, then a word in decimal.
pub fn word(out: &mut [u8], at: usize, n: u32) -> usize
    ensures { Adds (spaced (n ∷ [])) out.old at out.new result }
{
    let behind = put(out, at, b' ');
    number(out, behind, n as u64)
}

// Each word in decimal, behind a blank.
pub fn words(out: &mut [u8], at: usize, list: &[u32]) -> usize
    ensures { Adds (spaced list.now) out.old at out.new result }
{
    let mut at = at;
    for n in list {
        at = word(out, at, *n);
    }
    at
}

// A blank, then a value given by its two's complement words.
pub fn value(out: &mut [u8], at: usize, low: u32, high: u32) -> usize
    ensures { Adds (Text·bytes " " ++ signed (high * 2 ^ 32 + low)) out.old at out.new result }
{
    let behind = put(out, at, b' ');
    let bits = high as u64 * 4294967296 + low as u64;
    if bits < 9223372036854775808 {
        return number(out, behind, bits);
    }
    let signed = put(out, behind, b'-');
    number(out, signed, bits.wrapping_neg())
}
