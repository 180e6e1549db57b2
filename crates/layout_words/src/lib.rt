// The words that a node has no row for, and what stands in a map's braces.
#![tactic(auto)]

ghost use Rattle.layout_back.specs.Back.{Wrote};
ghost use Rattle.layout_words.specs.Words.{type_word, map_word, decl_word, assign_sign, text_word, typed_line, map_lines, field_words};

use rules::{fact, node_kind};

// A type of keys, values and elements.
#[tactic(auto, unfolding(crate::specs::Words::type_word))]
pub fn type_word(n: u32, room: &mut [u8], at: usize) -> usize
    ensures { Wrote (type_word n) room.old at room.new result }
{
    match n {
        fact::TYPE_U32 => layout_back::bytes(b"u32 ", room, at),
        fact::TYPE_U64 => layout_back::bytes(b"u64 ", room, at),
        fact::TYPE_I32 => layout_back::bytes(b"i32 ", room, at),
        _ => layout_back::bytes(b"i64 ", room, at),
    }
}

// A type of maps.
#[tactic(auto, unfolding(crate::specs::Words::map_word))]
fn map_word(n: u32, room: &mut [u8], at: usize) -> usize
    ensures { Wrote (map_word n) room.old at room.new result }
{
    match n {
        fact::MAP_HASH => layout_back::bytes(b"hash ", room, at),
        fact::MAP_ARRAY => layout_back::bytes(b"array ", room, at),
        fact::MAP_RINGBUF => layout_back::bytes(b"ringbuf ", room, at),
        fact::MAP_LRU_HASH => layout_back::bytes(b"lru_hash ", room, at),
        _ => layout_back::bytes(b"prog_array ", room, at),
    }
}

// The word of a declaration.
#[tactic(auto, unfolding(crate::specs::Words::decl_word))]
pub fn decl_word(k: u32, room: &mut [u8], at: usize) -> usize
    ensures { Wrote (decl_word k) room.old at room.new result }
{
    match k {
        node_kind::REG => layout_back::bytes(b"reg ", room, at),
        node_kind::IMM => layout_back::bytes(b"imm ", room, at),
        _ => layout_back::bytes(b"heap ", room, at),
    }
}

// The sign of an assignment.
#[tactic(auto, unfolding(crate::specs::Words::assign_sign))]
pub fn assign_sign(k: u32, room: &mut [u8], at: usize) -> usize
    ensures { Wrote (assign_sign k) room.old at room.new result }
{
    match k {
        node_kind::ASSIGN => layout_back::bytes(b"= ", room, at),
        _ => layout_back::bytes(b"+= ", room, at),
    }
}

// The word of a section or a licence.
#[tactic(auto, unfolding(crate::specs::Words::text_word))]
pub fn text_word(k: u32, room: &mut [u8], at: usize) -> usize
    ensures { Wrote (text_word k) room.old at room.new result }
{
    match k {
        node_kind::SECTION => layout_back::bytes(b"section ", room, at),
        _ => layout_back::bytes(b"license ", room, at),
    }
}

// A map's key or value behind its word, where there is one.
fn typed(head: &[u8], n: u32, room: &mut [u8], at: usize) -> usize
    ensures { Wrote (typed_line head.now n) room.old at room.new result }
{
    if n == 0 {
        return at;
    }
    let end = layout_back::bytes(b";\n", room, at);
    let to = type_word(n, room, end);
    layout_back::bytes(head, room, to)
}

// What stands in a map's braces, by its facts: type, key, value, max.
pub fn map_lines(kind: u32, key: u32, value: u32, max: u32, room: &mut [u8], at: usize) -> usize
    ensures { Wrote (map_lines kind key value max) room.old at room.new result }
{
    let last = layout_back::bytes(b";\n", room, at);
    let number = layout_back::number(max, 0, room, last);
    let most = layout_back::bytes(b"max : ", room, number);
    let valued = typed(b"value : ", value, room, most);
    let keyed = typed(b"key : ", key, room, valued);
    let end = layout_back::bytes(b";\n", room, keyed);
    let to = map_word(kind, room, end);
    layout_back::bytes(b"type : . ", room, to)
}

// What stands behind the name of an event's field, by its facts.
pub fn field_words(form: u32, kind: u32, length: u32, room: &mut [u8], at: usize) -> usize
    ensures { Wrote (field_words form kind length) room.old at room.new result }
{
    if form == fact::FORM_PLAIN {
        let end = layout_back::bytes(b";\n", room, at);
        let to = type_word(kind, room, end);
        return layout_back::bytes(b": ", room, to);
    }
    let shut = layout_back::bytes(b"] ;\n", room, at);
    let number = layout_back::number(length, 0, room, shut);
    if form == fact::FORM_BYTES {
        return layout_back::bytes(b": bytes [ ", room, number);
    }
    let opens = layout_back::bytes(b"[ ", room, number);
    let to = type_word(kind, room, opens);
    layout_back::bytes(b": ", room, to)
}
