// What a tallying does with one node: whether it can be counted, and the tally with one thing more.
#![tactic(auto)]

ghost use Rattle.std.specs.Prelude.{◌≡◌, cond, eqb};
ghost use Rattle.rules.specs.Nodes.{NodeEvent};
ghost use Rattle.rules.specs.Sets.{set_size};
ghost use Rattle.rules_tally.specs.Tally.{empty, is_statement};
ghost use Rattle.rules_tally.specs.Calls.{is_countable};
ghost use Rattle.tally_steps.specs.Steps.{with_unit, UnitFits, with_map, MapFits};

use rules::{fact, node_kind};
use rules_tally::Tally;

// Whether a node's kind is one, and so a unit's kind or a map's type, which is the node's first fact.
#[tactic(auto, unfolding(rules_tally::specs::Calls::is_countable))]
pub fn is_countable(kind: u32, fact: u32) -> bool
    ensures { result ≡ is_countable kind fact }
{
    match kind {
        node_kind::UNIT => fact <= fact::PROGRAM_UNKNOWN,
        node_kind::MAP => matches!(fact, fact::MAP_HASH..=fact::MAP_PROG_ARRAY),
        _ => matches!(kind, node_kind::VARIABLE..=node_kind::PROGRAM),
    }
}

// 1 for an event, else 0.
pub fn events_in(kind: u32) -> u64
    ensures { result ≡ cond (eqb kind NodeEvent) 1 0 }
{
    u64::from(kind == node_kind::EVENT)
}

// 1 for a statement, else 0.
pub fn statements_in(kind: u32) -> u64
    ensures { result ≡ cond (is_statement kind) 1 0 }
{
    u64::from(matches!(kind, node_kind::EXPRESSION..=node_kind::IF))
}

// How many methods a unit's kind allows.
pub fn methods_in(kind: u32) -> u64
    ensures { result ≡ set_size kind }
{
    match methods::set_size(kind) {
        Ok(n) => n as u64,
        Err(_) => 0,
    }
}

// The tally of nothing.
#[tactic(auto, unfolding(rules_tally::specs::Tally::tally_by))]
pub fn nothing() -> Tally
    ensures { result ≡ empty }
{
    Tally {
        units: [0; 11],
        maps: [0; 5],
        events: 0,
        statements: 0,
        max: 0,
        methods: 0,
    }
}

// A unit more, with the methods that its kind allows.
#[tactic(auto, unfolding(crate::specs::Steps::with_unit))]
pub fn with_unit(t: &mut Tally, kind: u32)
    requires { UnitFits t.old kind }
    ensures { t.new ≡ with_unit t.old kind }
{
    t.units[kind as usize] += 1;
    t.methods += methods_in(kind);
}

// A map more, with its max.
#[tactic(auto, unfolding(crate::specs::Steps::with_map))]
pub fn with_map(t: &mut Tally, kind: u32, max: u32)
    requires { MapFits t.old kind max }
    ensures { t.new ≡ with_map t.old kind max }
{
    t.maps[(kind - fact::MAP_HASH) as usize] += 1;
    t.max += u64::from(max);
}
