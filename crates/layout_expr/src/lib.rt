// Expressions, from their last byte to their first. From a node on the way goes to its left part and there on, one turn of a loop for each
// operator, field and call; what stands on the right is written by a call. The functions call each other in a circle, the nodes falling.
#![tactic(auto)]

ghost use Rattle.layout_signs.specs.Levels.{number};
ghost use Rattle.layout_expr.specs.Written.{WroteExpr, WroteArgs, WroteLeaf, WroteStep, WroteCall};

use layout_back::Source;
use layout_signs::Binding;
use rules::{node, node_kind};

// Where the nodes and where the bytes begin of what was written.
#[derive(Clone, Copy)]
pub struct Back {
    pub node: u32,
    pub at: usize,
}

// The expression that ends in front of node n, at a place that takes a level. Parentheses that open are counted, and written once the first
// operand is.
// Stays a while loop: each turn goes on at the node that a call gave back, and a for has no such step.
#[cycle(args_call_expr_leaf_step)]
pub fn expr(source: &Source<'_>, n: u32, place: Binding, room: &mut [u8], at: usize) -> Back
    ensures { WroteExpr source.now.text.now source.now.rows.now source.now.nodes.now n (number place) room.old at
        room.new result }
{
    let mut end = n;
    let mut takes = place;
    let mut opened = 0;
    let mut to = at;
    while 0 < end {
        let j = end - 1;
        let k = layout_back::word(source.nodes, j, node::KIND);
        let more = layout_signs::pairs(takes, layout_signs::level(k));
        to = layout_signs::repeated(b") ", more, room, to);
        opened += more;
        if k <= node_kind::DEREFERENCE {
            let b = leaf(source, j, room, to);
            return Back {
                at: layout_signs::repeated(b"( ", opened, room, b.at),
                ..b
            };
        }
        let b = step(source, j, room, to);
        end = b.node;
        to = b.at;
        takes = layout_signs::left(k);
    }
    Back { node: 0, at: to }
}

// A variable, a number or a dereference.
#[cycle(args_call_expr_leaf_step)]
fn leaf(source: &Source<'_>, j: u32, room: &mut [u8], at: usize) -> Back
    ensures { WroteLeaf source.now.text.now source.now.rows.now source.now.nodes.now j room.old at
        room.new result }
{
    let k = layout_back::word(source.nodes, j, node::KIND);
    match k {
        node_kind::NUMBER => {
            let low = layout_back::word(source.nodes, j, node::FACT0);
            let high = layout_back::word(source.nodes, j, node::FACT1);
            Back {
                node: j,
                at: layout_back::number(low, high, room, at),
            }
        }
        node_kind::DEREFERENCE => {
            let b = expr(source, j, Binding::Starred, room, at);
            Back {
                at: layout_back::bytes(b"* ", room, b.at),
                ..b
            }
        }
        _ => {
            let name = layout_back::word(source.nodes, j, node::NAME);
            Back {
                node: j,
                at: layout_back::name(source, name, room, at),
            }
        }
    }
}

// What stands behind the left part of an operator, a field or a call.
#[cycle(args_call_expr_leaf_step)]
fn step(source: &Source<'_>, j: u32, room: &mut [u8], at: usize) -> Back
    ensures { WroteStep source.now.text.now source.now.rows.now source.now.nodes.now j room.old at
        room.new result }
{
    let k = layout_back::word(source.nodes, j, node::KIND);
    match k {
        node_kind::CALL => call(source, j, room, at),
        node_kind::FIELD => {
            let name = layout_back::word(source.nodes, j, node::NAME);
            let to = layout_back::name(source, name, room, at);
            Back {
                node: j,
                at: layout_back::bytes(b". ", room, to),
            }
        }
        _ => {
            let b = expr(source, j, layout_signs::right(k), room, at);
            Back {
                at: layout_signs::operator(k, room, b.at),
                ..b
            }
        }
    }
}

// What stands behind the receiver of a call.
#[cycle(args_call_expr_leaf_step)]
fn call(source: &Source<'_>, j: u32, room: &mut [u8], at: usize) -> Back
    ensures { WroteCall source.now.text.now source.now.rows.now source.now.nodes.now j room.old at
        room.new result }
{
    let things = layout_back::word(source.nodes, j, node::CHILDREN);
    let name = layout_back::word(source.nodes, j, node::NAME);
    let shut = layout_back::bytes(b") ", room, at);
    let b = args(source, j, things, room, shut);
    let opens = layout_back::bytes(b"( ", room, b.at);
    let to = layout_back::name(source, name, room, opens);
    Back {
        at: layout_back::bytes(b". ", room, to),
        ..b
    }
}

// The arguments that end in front of node n, so many with the receiver.
#[cycle(args_call_expr_leaf_step)]
fn args(source: &Source<'_>, n: u32, things: u32, room: &mut [u8], at: usize) -> Back
    ensures { WroteArgs source.now.text.now source.now.rows.now source.now.nodes.now n things room.old at
        room.new result }
{
    let mut end = n;
    let mut to = at;
    for left in (1..things).rev() {
        let b = expr(source, end, Binding::Sum, room, to);
        end = b.node;
        to = layout_signs::comma(left, room, b.at);
    }
    Back { node: end, at: to }
}
