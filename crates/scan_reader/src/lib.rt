// The token reader: what stands at an index of a text that ends, or of a window that may stop short of the text's end.
#![tactic(auto)]

use rules::Cursor;

pub mod codes;
pub mod front;
mod pieces;

// An index into the lent bytes, with the cursor there: whoever reads on moves it, and need not know where the bytes start in the text.
#[derive(Clone, Copy)]
pub struct Spot {
    pub at: usize,
    pub cursor: Cursor,
}

// What stands at an index, in three numbers: a row's size, kind and value's bits; or by a code above all kinds (`codes`) a blank or a
// comment with its size, the text's end, that more bytes must be shown, or a refusal, its size being how far on its place is.
#[derive(Clone, Copy)]
pub struct Brief {
    pub size: usize,
    pub kind: u32,
    pub bits: u64,
}
