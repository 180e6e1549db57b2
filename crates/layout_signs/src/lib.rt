// Levels and places of expressions by the kinds of nodes, and the bytes of signs.
#![tactic(auto)]

ghost use Rattle.std.specs.Prelude.{◌≡◌, ◌≤◌};
ghost use Rattle.layout_back.specs.Back.{Wrote};
ghost use Rattle.layout_signs.specs.Levels.{number, node_level, right_place, operator_of, pairs, repeated, comma};

use rules::node_kind::{ADD, DEREFERENCE, DIV, MOD, MUL, SHL, SHR, SUB};

// How tightly an expression binds, which is its level, and what places take: what is not below that stands there without parentheses.
#[derive(Clone, Copy)]
pub enum Binding {
    Sum,
    Shift,
    Product,
    Starred,
    Operand,
}

// The level of an expression by its node's kind.
#[tactic(auto, unfolding(crate::specs::Levels::node_level))]
pub fn level(k: u32) -> Binding
    ensures { number result ≡ node_level k }
{
    match k {
        ADD | SUB => Binding::Sum,
        SHL | SHR => Binding::Shift,
        MUL | DIV | MOD => Binding::Product,
        DEREFERENCE => Binding::Starred,
        _ => Binding::Operand,
    }
}

// What the left of an operator, of a field's and of a call's dot takes.
pub fn left(k: u32) -> Binding
    ensures { number result ≡ node_level k }
{
    level(k)
}

// What the right of an operator takes.
#[tactic(auto, unfolding(crate::specs::Levels::right_place))]
pub fn right(k: u32) -> Binding
    ensures { number result ≡ right_place k }
{
    match k {
        MUL | DIV | MOD => Binding::Starred,
        _ => Binding::Product,
    }
}

// How many pairs of parentheses an expression of a level has at a place.
#[tactic(auto, unfolding(crate::specs::Levels::pairs))]
pub fn pairs(place: Binding, level: Binding) -> u32
    ensures { (result ≡ pairs (number place) (number level)) × (result ≤ 1) }
{
    u32::from((level as u32) < place as u32)
}

// An operator's sign.
#[tactic(auto, unfolding(crate::specs::Levels::operator_of))]
pub fn operator(k: u32, room: &mut [u8], at: usize) -> usize
    ensures { Wrote (operator_of k) room.old at room.new result }
{
    match k {
        ADD => layout_back::bytes(b"+ ", room, at),
        SUB => layout_back::bytes(b"- ", room, at),
        MUL => layout_back::bytes(b"* ", room, at),
        DIV => layout_back::bytes(b"/ ", room, at),
        MOD => layout_back::bytes(b"% ", room, at),
        SHL => layout_back::bytes(b"<< ", room, at),
        _ => layout_back::bytes(b">> ", room, at),
    }
}

// Bytes so many times.
pub fn repeated(bytes: &[u8], times: u32, room: &mut [u8], at: usize) -> usize
    ensures { Wrote (repeated times bytes.now) room.old at room.new result }
{
    let mut to = at;
    for _ in 0..times {
        to = layout_back::bytes(bytes, room, to);
    }
    to
}

// What stands behind a call's receiver and arguments, so many of them, and in front of the next.
#[tactic(auto, using(crate::proofs::Signs::comma_nothing), unfolding(crate::specs::Levels::comma))]
pub fn comma(things: u32, room: &mut [u8], at: usize) -> usize
    ensures { Wrote (comma things) room.old at room.new result }
{
    if things <= 1 {
        return at;
    }
    layout_back::bytes(b", ", room, at)
}
