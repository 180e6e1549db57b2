// The entries of an index, from the nodes of a program, in the order of the nodes.
#![tactic(auto)]

ghost use Rattle.std.specs.Prelude.{◌≡◌};
ghost use Rattle.theory_entries.specs.Entries.{has_name};
ghost use Rattle.program_index.specs.Write.{AsksEntry, EntryPut, AsksEntries, EntriesWritten};

use rules::{node, node_kind};

// The words of an entry: the name's row and the node.
pub const ENTRY_WORDS: usize = 2;

// Whether nodes of a kind have an entry: those of maps and events.
fn has_name(kind: u32) -> bool
    ensures { result ≡ has_name kind }
{
    matches!(kind, node_kind::MAP | node_kind::EVENT)
}

// The entry of node n after so many others, if it has one. Tells how many there are then.
fn put_entry(nodes: &[u32], n: u32, index: &mut [u32], made: u32) -> u32
    requires { AsksEntry nodes.now n index.old made }
    ensures { EntryPut nodes.now n index.old made index.new result }
{
    let at = (n as usize) * node::WORDS;
    if !has_name(nodes[at]) {
        return made;
    }
    let to = (made as usize) * ENTRY_WORDS;
    index[to] = nodes[at + node::NAME];
    index[to + 1] = n;
    made + 1
}

// The entries of the first nodes, so many.
pub fn write_entries(nodes: &[u32], count: u32, index: &mut [u32]) -> u32
    requires { AsksEntries nodes.now count index.old }
    ensures { EntriesWritten nodes.now count index.old index.new result }
{
    let mut made = 0;
    for n in 0..count {
        made = put_entry(nodes, n, index, made);
    }
    made
}
