// Nodes moved to other rows, word by word in lent memory, and children added to a node.
#![tactic(auto)]

ghost use Rattle.std.specs.Prelude.{◌≡◌, ◌+◌, ◌≤◌};
ghost use Rattle.rules.specs.Nodes.{missing};
ghost use Rattle.theory_moved.specs.Moved.{moved_row};
ghost use Rattle.program_move.specs.Move.{AsksFirst, FirstMoved, AsksMove, NodesMoved, AsksChildren, ChildrenAdded};

use rules::node::MISSING;
use rules::{node, node_kind};

// A row that stands so many rows further on. A row that is missing stays missing.
// Stays a number, MISSING: rows are words of memory that C lends, and `moved_row` speaks of these words.
#[tactic(auto, using(crate::proofs::First::row_missing, crate::proofs::First::row_there))]
fn move_row(row: u32, by: u32) -> u32
    requires { (row ≡ missing → ⊥) → row + by ≤ missing }
    ensures { result ≡ moved_row by row }
{
    match row {
        MISSING => MISSING,
        _ => row + by,
    }
}

// The first node: its place, its name and a unit's second fact.
fn move_first(nodes: &mut [u32], by: u32)
    requires { AsksFirst nodes.old by }
    ensures { FirstMoved nodes.old by nodes.new }
{
    nodes[node::PLACE] += by;
    nodes[node::NAME] = move_row(nodes[node::NAME], by);
    if nodes[node::KIND] == node_kind::UNIT {
        nodes[node::FACT1] = move_row(nodes[node::FACT1], by);
    }
}

// The first nodes, so many.
pub fn move_nodes(nodes: &mut [u32], count: u32, by: u32)
    requires { AsksMove nodes.old count by }
    ensures { NodesMoved nodes.old count by nodes.new }
{
    for i in 0..count as usize {
        move_first(&mut nodes[i * node::WORDS..], by);
    }
}

// So many more children of the first node.
#[tactic(auto, using(crate::proofs::First::children_added))]
pub fn add_children(nodes: &mut [u32], more: u32)
    requires { AsksChildren nodes.old more }
    ensures { ChildrenAdded nodes.old more nodes.new }
{
    nodes[node::CHILDREN] += more;
}
