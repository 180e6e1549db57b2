// A tally in C's words.
#![tactic(auto)]

ghost use Rattle.std.specs.Prelude.{◌≡◌};
ghost use Rattle.rules_tally.specs.Calls.{tally_in, tally_words};

use rules_tally::Tally;
use std::array;

// How many words in front of a tally's maps, its events and each later count there are.
const MAPS: usize = 11;

const EVENTS: usize = 16;

// The tally that twenty words tell.
#[tactic(auto, unfolding(rules_tally::specs::Calls::tally_in))]
pub fn tally_of(words: &[u64; 20]) -> Tally
    ensures { result ≡ tally_in words.now }
{
    Tally {
        units: array::from_fn(|k| words[k]),
        maps: array::from_fn(|k| words[MAPS + k]),
        events: words[EVENTS],
        statements: words[EVENTS + 1],
        max: words[EVENTS + 2],
        methods: words[EVENTS + 3],
    }
}

// The twenty words of a tally.
#[tactic(auto, unfolding(rules_tally::specs::Calls::tally_words))]
pub fn put_tally(words: &mut [u64; 20], t: Tally)
    ensures { words.new ≡ tally_words t }
{
    for (k, count) in t.units.iter().enumerate() {
        words[k] = *count;
    }
    for (k, count) in t.maps.iter().enumerate() {
        words[MAPS + k] = *count;
    }
    words[EVENTS] = t.events;
    words[EVENTS + 1] = t.statements;
    words[EVENTS + 2] = t.max;
    words[EVENTS + 3] = t.methods;
}
