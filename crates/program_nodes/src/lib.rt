// The nodes of a prelude and a probe, read as one program, into lent memory.
#![tactic(auto)]

ghost use Rattle.std.specs.Prelude.{◌≤◌};
ghost use Rattle.rules.specs.Calls.{node_room};
ghost use Rattle.rules.specs.Nodes.{nodes_of};
ghost use Rattle.program_nodes.specs.Write.{Reads, tree_read, Written, nodes_after, nodes_of_pair, AsksAfter, AsksPair};

use program_names::{Both, Scanned};
use rules::node;

// The nodes of one text.
fn write_one(source: &Scanned<'_>, nodes: &mut [u32]) -> u32
    requires { Reads source.now × (source.now.count ≤ node_room nodes.old) }
    ensures { Written (nodes_of 0 (tree_read source.now)) nodes.old nodes.new result }
{
    match parse::written(source.text, source.rows, source.count, nodes) {
        Ok(n) => n,
        Err(_) => 0,
    }
}

// The nodes of a text whose first row stands so many rows further on, and whose program node has so many more children.
fn write_after(source: &Scanned<'_>, by: u32, more: u32, nodes: &mut [u32]) -> u32
    requires { AsksAfter source.now.text.now source.now.rows.now source.now.count by more nodes.old }
    ensures { Written (nodes_after by more (tree_read source.now)) nodes.old nodes.new result }
{
    let made = write_one(source, nodes);
    program_move::move_nodes(nodes, made, by);
    let last = ((made - 1) as usize) * node::WORDS;
    program_move::add_children(&mut nodes[last..], more);
    made
}

// The nodes of both: the prelude's without its program node, and over that the probe's.
pub fn write_both(both: &Both<'_>, nodes: &mut [u32]) -> u32
    requires { AsksPair both.now nodes.old }
    ensures { Written (nodes_of_pair both.now) nodes.old nodes.new result }
{
    let kept = write_one(&both.prelude, nodes) - 1;
    let first = (kept as usize) * node::WORDS;
    let more = nodes[first + node::CHILDREN];
    let made = write_after(&both.probe, both.prelude.count, more, &mut nodes[first..]);
    kept + made
}
