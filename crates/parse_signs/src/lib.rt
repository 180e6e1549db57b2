// Operators: which kinds of rows are signs, shifts or operators of `mul`, the node kind of each, and the node of one with its operands.
#![tactic(auto)]

ghost use Rattle.std.specs.Prelude.{◌≡◌, not, ◌&&◌, ◌||◌, ◌≤◌};
ghost use Rattle.rules.specs.Nodes.{binary_node};
ghost use Rattle.rules.specs.Parse.{is_add, is_shift, is_mul};
ghost use Rattle.parse_nodes.specs.Post.{most_rows};
ghost use Rattle.parse_signs.specs.Joined.{Joined};

use parse_nodes::At;
use rules::kind::{MINUS, PERCENT, PLUS, SHL, SHR, SLASH, STAR};
use rules::node::MISSING;
use rules::node_kind;

// Whether a row's kind is `+` or `-`.
pub fn is_add(k: u32) -> bool
    ensures { result ≡ is_add k }
{
    matches!(k, PLUS | MINUS)
}

// Whether a row's kind is `<<` or `>>`.
pub fn is_shift(k: u32) -> bool
    ensures { result ≡ is_shift k }
{
    matches!(k, SHL | SHR)
}

// Whether a row's kind is `*`, `/` or `%`.
pub fn is_mul(k: u32) -> bool
    ensures { result ≡ is_mul k }
{
    matches!(k, STAR | SLASH | PERCENT)
}

// The node kind of an operator's row kind. From `+` to `%` the row kinds and their node kinds stand in the same order, and of the two
// shifts the order is the other way round, so that the compiler makes no branch of it.
#[tactic(auto, unfolding(rules::specs::Nodes::binary_node))]
pub fn binary_node(k: u32) -> u32
    ensures { result ≡ binary_node k }
{
    match k {
        SHL => node_kind::SHL,
        PLUS..=PERCENT => k - PLUS + node_kind::ADD,
        _ => node_kind::SHR,
    }
}

// Whether a row of a kind goes on with an expression: a sign, or a shift where no sign was read.
pub fn joins(k: u32, summed: bool) -> bool
    ensures { result ≡ is_add k || (is_shift k && not summed) }
{
    is_add(k) | (is_shift(k) & !summed)
}

// The state behind an operator with its operands: the first ends at s, the second at t. Where there is no operator, t alone was read.
pub fn joined(nodes: &mut [u32], s: At, t: At, operator: Option<u32>) -> At
    requires { t.node ≤ most_rows }
    ensures { Joined operator s t nodes.old nodes.new result }
{
    let Some(k) = operator else {
        return t;
    };
    let n = t.node;
    parse_nodes::close(nodes, n, binary_node(k), s.place, MISSING, 2);
    At {
        summed: is_add(k),
        ..At::new(t.row, n + 1, s.place)
    }
}
