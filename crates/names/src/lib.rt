// Names by their bytes, compared where they stand: a number where bytes have a spelling, or begin with one.
ghost use Rattle.std.specs.Prelude.{◌≡◌, cond, length, take};
ghost use Rattle.rules.specs.Kinds.{same_bytes};

// A number where a text is a spelling, and else another.
// Stays check::same and not `==`: section_kind, which compares by it, may take 64 bytes of stack (compare/tests/stack.rs).
pub fn spelt(text: &[u8], spelling: &[u8], number: u32, other: u32) -> u32
    ensures { result ≡ cond (same_bytes spelling.now text.now) number other }
{
    if check::same(text, spelling) {
        return number;
    }
    other
}

// A number where a text begins with a spelling, and else another.
pub fn begun(text: &[u8], spelling: &[u8], number: u32, other: u32) -> u32
    ensures { result
        ≡ cond (same_bytes spelling.now (take (length spelling.now) text.now))
        number other }
{
    let n = spelling.len();
    if text.len() < n {
        return other;
    }
    if check::same(&text[..n], spelling) {
        return number;
    }
    other
}
