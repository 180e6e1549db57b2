// The tally of lent nodes.
#![tactic(auto)]

ghost use Rattle.std.specs.Prelude.{◌≡◌};
ghost use Rattle.rules_tally.specs.Calls.{tallied};

use rules::{node, node_kind};
use rules_tally::{NotNodes, Tally};
use tally_steps::{events_in, is_countable, nothing, statements_in, with_map, with_unit};

// How many nodes two texts have at most.
const MOST_NODES: u32 = 131_074;

// What the first `count` nodes have of each thing that is counted, in one pass.
pub fn tally(nodes: &[u32], count: u32) -> Result<Tally, NotNodes>
    ensures { result ≡ tallied nodes.now count }
{
    let n = count as usize;
    if MOST_NODES < count || nodes.len() / node::WORDS < n {
        return Err(NotNodes);
    }
    let mut t = nothing();
    for i in 0..n {
        let at = i * node::WORDS;
        let kind = nodes[at + node::KIND];
        let fact = nodes[at + node::FACT0];
        if !is_countable(kind, fact) {
            return Err(NotNodes);
        }
        match kind {
            node_kind::UNIT => with_unit(&mut t, fact),
            node_kind::MAP => with_map(&mut t, fact, nodes[at + node::FACT3]),
            _ => {
                t.events += events_in(kind);
                t.statements += statements_in(kind);
            }
        }
    }
    Ok(t)
}
