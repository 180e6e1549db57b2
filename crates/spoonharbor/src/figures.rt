// Figures over lent words: the tally of nodes, and two tallies joined.
ghost use Rattle.std.specs.Prelude.{◌≡◌};
ghost use Rattle.rules_tally.specs.Calls.{counting_number, joining_number, counted, joined_counts, tallied, joined, tally_in, tally_words};

use rules_tally::{CountTooLarge, NotNodes};
use tally_steps::nothing;
use tally_words::{put_tally, tally_of};

// The tally of the first `count` nodes: 0, or 3 and the tally of nothing.
#[unsafe(no_mangle)]
pub extern "C" fn spoonharbor_tally(nodes: &[u32], count: u32, counts: &mut [u64; 20]) -> u32
    ensures told { result ≡ counting_number (tallied nodes.now count) }
    ensures left { counts.new ≡ tally_words (counted (tallied nodes.now count)) }
{
    match tally::tally(nodes, count) {
        Ok(counted) => {
            put_tally(counts, counted);
            0
        }
        Err(NotNodes) => {
            put_tally(counts, nothing());
            3
        }
    }
}

// Two tallies joined: 0, or 70 and the first.
#[unsafe(no_mangle)]
pub extern "C" fn spoonharbor_join(
    first: &[u64; 20],
    second: &[u64; 20],
    sum: &mut [u64; 20],
) -> u32
    ensures told { result ≡ joining_number (joined (tally_in first.now) (tally_in second.now)) }
    ensures left { sum.new
        ≡ tally_words (joined_counts (joined (tally_in first.now) (tally_in second.now))) }
{
    match tally_join::join(tally_of(first), tally_of(second)) {
        Ok(both) => {
            put_tally(sum, both);
            0
        }
        Err(CountTooLarge { first }) => {
            put_tally(sum, first);
            70
        }
    }
}
