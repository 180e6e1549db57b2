// The plain data that the definitions and the code of a site prelude share: what reading two texts as one program tells, and what finding
// a name tells.
#![tactic(auto)]

use rules::{Cursor, Outer, Reason};

// Which of two texts.
#[derive(Clone, Copy)]
pub enum Which {
    Prelude,
    Probe,
}

// Why two texts are no program: what a parse of one alone is refused with, or 5; 50, the prelude has a unit; 51, a map's or an event's
// name was declared before; 4, the index has no room.
#[derive(Clone, Copy)]
pub enum Unjoined {
    Own(Reason),
    UnitInPrelude,
    DeclaredTwice,
    NoIndexRoom,
}

// Two texts are one program: so many nodes and so many entries are written.
#[derive(Clone, Copy)]
pub struct Joined {
    pub nodes: u32,
    pub entries: u32,
}

// Why they are none, where and in which text, and the kind that 21 found.
#[derive(Clone, Copy)]
pub struct Refused {
    pub why: Unjoined,
    pub at: Cursor,
    pub found: u32,
    pub which: Which,
}

// The part of a text that a row spells, from its first byte to the one after it.
#[derive(Clone, Copy)]
pub struct Part {
    pub which: Which,
    pub start: u32,
    pub end: u32,
}

// Why a row's part or a name's node is not told, where and in which text.
#[derive(Clone, Copy)]
pub struct Untold {
    pub why: Outer,
    pub at: Cursor,
    pub which: Which,
}
