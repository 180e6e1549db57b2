// Lines, each from its last byte to its first: statements but `if`, sections and licences, fields of events, and maps.
#![tactic(auto)]

ghost use Rattle.std.specs.Prelude.{List, ◌++◌, ℕ};
ghost use Rattle.rules.specs.Text.{bytes};
ghost use Rattle.layout_back.specs.Back.{Wrote};
ghost use Rattle.layout_back.specs.Words.{word_of, SpelledAs};
ghost use Rattle.layout_words.specs.Words.{text_word};
ghost use Rattle.layout_expr.specs.Parts.{kind_of};
ghost use Rattle.layout_lines.specs.Lines.{map_at, field_at, WroteLine, WroteStatement};

use layout_back::Source;
use layout_expr::Back;
use layout_signs::Binding;
use rules::{node, node_kind};

// A statement but `if`: its last expression, and what its kind has in front of that.
fn statement(source: &Source<'_>, j: u32, room: &mut [u8], at: usize) -> Back
    ensures { WroteStatement source.now.text.now source.now.rows.now source.now.nodes.now j room.old at
        room.new result }
{
    let k = layout_back::word(source.nodes, j, node::KIND);
    let name = layout_back::word(source.nodes, j, node::NAME);
    let end = layout_back::bytes(b";\n", room, at);
    let b = layout_expr::expr(source, j, Binding::Sum, room, end);
    match k {
        node_kind::EXPRESSION => b,
        node_kind::RETURN => Back {
            at: layout_back::bytes(b"return ", room, b.at),
            ..b
        },
        ..=node_kind::ADD_ASSIGN => {
            let sign = layout_words::assign_sign(k, room, b.at);
            layout_expr::expr(source, b.node, Binding::Sum, room, sign)
        }
        _ => {
            let equals = layout_back::bytes(b"= ", room, b.at);
            let to = layout_back::name(source, name, room, equals);
            Back {
                at: layout_words::decl_word(k, room, to),
                ..b
            }
        }
    }
}

// A section or a licence.
fn text_line(source: &Source<'_>, j: u32, room: &mut [u8], at: usize) -> usize
    ensures { (w : List ℕ) → SpelledAs source.now.text.now source.now.rows.now (word_of source.now.nodes.now j 2) w → Wrote
        (text_word (kind_of source.now.nodes.now j) ++ ((w ++ bytes " ") ++ bytes ";\n")) room.old at room.new result }
{
    let k = layout_back::word(source.nodes, j, node::KIND);
    let name = layout_back::word(source.nodes, j, node::NAME);
    let end = layout_back::bytes(b";\n", room, at);
    let to = layout_back::name(source, name, room, end);
    layout_words::text_word(k, room, to)
}

// A field of an event.
fn field_line(source: &Source<'_>, j: u32, room: &mut [u8], at: usize) -> usize
    ensures { (w : List ℕ) → SpelledAs source.now.text.now source.now.rows.now (word_of source.now.nodes.now j 2) w → Wrote
        ((w ++ bytes " ") ++ field_at source.now.nodes.now j) room.old at room.new result }
{
    let name = layout_back::word(source.nodes, j, node::NAME);
    let form = layout_back::word(source.nodes, j, node::FACT0);
    let kind = layout_back::word(source.nodes, j, node::FACT1);
    let length = layout_back::word(source.nodes, j, node::FACT2);
    let to = layout_words::field_words(form, kind, length, room, at);
    layout_back::name(source, name, room, to)
}

// A map: what it has by its facts, in braces.
fn map_line(source: &Source<'_>, j: u32, room: &mut [u8], at: usize) -> usize
    ensures { (w : List ℕ) → SpelledAs source.now.text.now source.now.rows.now (word_of source.now.nodes.now j 2) w → Wrote
        (bytes "map " ++ ((w ++ bytes " ") ++ (bytes "{\n" ++ (map_at source.now.nodes.now j ++ bytes "}\n")))) room.old at
        room.new result }
{
    let name = layout_back::word(source.nodes, j, node::NAME);
    let kind = layout_back::word(source.nodes, j, node::FACT0);
    let key = layout_back::word(source.nodes, j, node::FACT1);
    let value = layout_back::word(source.nodes, j, node::FACT2);
    let max = layout_back::word(source.nodes, j, node::FACT3);
    let shut = layout_back::bytes(b"}\n", room, at);
    let inner = layout_words::map_lines(kind, key, value, max, room, shut);
    let opens = layout_back::bytes(b"{\n", room, inner);
    let to = layout_back::name(source, name, room, opens);
    layout_back::bytes(b"map ", room, to)
}

// The line of node j.
pub fn line(source: &Source<'_>, j: u32, room: &mut [u8], at: usize) -> Back
    ensures { WroteLine source.now.text.now source.now.rows.now source.now.nodes.now j room.old at
        room.new result }
{
    let k = layout_back::word(source.nodes, j, node::KIND);
    match k {
        ..=node_kind::RETURN => statement(source, j, room, at),
        node_kind::EVENT_FIELD => Back {
            node: j,
            at: field_line(source, j, room, at),
        },
        node_kind::MAP => Back {
            node: j,
            at: map_line(source, j, room, at),
        },
        _ => Back {
            node: j,
            at: text_line(source, j, room, at),
        },
    }
}
