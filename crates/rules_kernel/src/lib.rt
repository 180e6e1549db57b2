// The plain data that the definitions and the code of the kernel's map rules share: which rule a map breaks, and what a parse under them
// tells.
#![tactic(auto)]

use rules::{Cursor, Reason};

// The rules: 60, max is zero; 61, a ringbuf has a key or a value; 62, a ringbuf's size; 63, a key's size; 64, a value's size.
#[derive(Clone, Copy)]
pub enum Breach {
    MaxZero,
    RingbufTyped,
    RingbufSize,
    KeySize,
    ValueSize,
}

// Why a program is refused: as without the rules, or by one of them.
#[derive(Clone, Copy)]
pub enum Unloaded {
    Unread(Reason),
    Broken(Breach),
}

// Why no node is written, where, and the kind that 21 found.
#[derive(Clone, Copy)]
pub struct Refused {
    pub why: Unloaded,
    pub at: Cursor,
    pub found: u32,
}
