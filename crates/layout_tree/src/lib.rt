// Whole programs, from the last byte to the first. Things in braces are written from the last to the first in a loop, their own braces by a
// call; the functions from `thing` to `things` call each other in a circle, the nodes falling.
#![tactic(auto)]

ghost use Rattle.layout_tree.specs.Things.{One, Body, Many, WroteThing, WroteHeaded, WroteGuarded, WroteBranch, WroteProgram};

use layout_back::Source;
use layout_expr::Back;
use rules::{node, node_kind};

// The thing that ends in front of node n.
#[cycle(body_branch_guarded_headed_thing_things)]
fn thing(source: &Source<'_>, n: u32, room: &mut [u8], at: usize) -> Back
    ensures { WroteThing source.now.text.now source.now.rows.now source.now.nodes.now One n 0 room.old at
        room.new result }
{
    if n == 0 {
        return Back { node: 0, at };
    }
    let j = n - 1;
    let k = layout_back::word(source.nodes, j, node::KIND);
    match k {
        node_kind::IF => branch(source, j, room, at),
        node_kind::UNIT => headed(source, b"unit ", n, room, at),
        node_kind::EVENT => headed(source, b"event ", n, room, at),
        _ => layout_lines::line(source, j, room, at),
    }
}

// A unit or an event, behind its word: a name, and the things of the node in front of n in braces.
#[cycle(body_branch_guarded_headed_thing_things)]
fn headed(source: &Source<'_>, word: &[u8], n: u32, room: &mut [u8], at: usize) -> Back
    ensures { WroteHeaded source.now.text.now source.now.rows.now source.now.nodes.now word.now n
        room.old at room.new result }
{
    if n == 0 {
        return Back { node: 0, at };
    }
    let name = layout_back::word(source.nodes, n - 1, node::NAME);
    let b = body(source, n, room, at);
    let to = layout_back::name(source, name, room, b.at);
    Back {
        at: layout_back::bytes(word, room, to),
        ..b
    }
}

// The things of the node in front of n, in braces.
#[cycle(body_branch_guarded_headed_thing_things)]
fn body(source: &Source<'_>, n: u32, room: &mut [u8], at: usize) -> Back
    ensures { WroteThing source.now.text.now source.now.rows.now source.now.nodes.now Body n 0 room.old at
        room.new result }
{
    if n == 0 {
        return Back { node: 0, at };
    }
    let j = n - 1;
    let count = layout_back::word(source.nodes, j, node::CHILDREN);
    let shut = layout_back::bytes(b"}\n", room, at);
    let b = things(source, j, count, room, shut);
    Back {
        at: layout_back::bytes(b"{\n", room, b.at),
        ..b
    }
}

// The `if` of node j: with three children the last is its second body.
#[cycle(body_branch_guarded_headed_thing_things)]
fn branch(source: &Source<'_>, j: u32, room: &mut [u8], at: usize) -> Back
    ensures { WroteBranch source.now.text.now source.now.rows.now source.now.nodes.now j room.old at
        room.new result }
{
    let count = layout_back::word(source.nodes, j, node::CHILDREN);
    if count != 3 {
        return guarded(source, j, room, at);
    }
    let b = body(source, j, room, at);
    let to = layout_back::bytes(b"else ", room, b.at);
    guarded(source, b.node, room, to)
}

// An `if` whose first body ends in front of node n; the variable's node stands in front of the body's.
#[cycle(body_branch_guarded_headed_thing_things)]
fn guarded(source: &Source<'_>, n: u32, room: &mut [u8], at: usize) -> Back
    ensures { WroteGuarded source.now.text.now source.now.rows.now source.now.nodes.now n room.old at
        room.new result }
{
    let b = body(source, n, room, at);
    let end = b.node;
    if end == 0 {
        return b;
    }
    let name = layout_back::word(source.nodes, end - 1, node::NAME);
    let shut = layout_back::bytes(b") ", room, b.at);
    let to = layout_back::name(source, name, room, shut);
    Back {
        node: end - 1,
        at: layout_back::bytes(b"if guard ( ", room, to),
    }
}

// So many things that end in front of node n.
#[cycle(body_branch_guarded_headed_thing_things)]
fn things(source: &Source<'_>, n: u32, count: u32, room: &mut [u8], at: usize) -> Back
    ensures { WroteThing source.now.text.now source.now.rows.now source.now.nodes.now Many n count room.old at
        room.new result }
{
    let mut end = n;
    let mut to = at;
    for _ in 0..count {
        let b = thing(source, end, room, to);
        end = b.node;
        to = b.at;
    }
    Back { node: end, at: to }
}

// A program of so many nodes, so that it ends at a place: where it begins.
pub fn program(source: &Source<'_>, count: u32, room: &mut [u8], at: usize) -> usize
    ensures { WroteProgram source.now.text.now source.now.rows.now source.now.nodes.now count room.old at
        room.new result }
{
    if count == 0 {
        return at;
    }
    let j = count - 1;
    let children = layout_back::word(source.nodes, j, node::CHILDREN);
    things(source, j, children, room, at).at
}
