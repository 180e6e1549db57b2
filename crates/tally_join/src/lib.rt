// Two tallies joined: all counts are tried before any is added.
#![tactic(auto)]

ghost use Rattle.std.specs.Prelude.{◌≡◌, true, ◌+◌, ◌^◌, ltb, length};
ghost use Rattle.rules_tally.specs.Calls.{add_each, all_fit, fits, sum, joined};
ghost use Rattle.tally_join.specs.Adding.{Addable};

use rules::limit;
use rules_tally::{CountTooLarge, Tally};

// Whether the sum of two counts fits 64 bits.
fn fit(a: u64, b: u64) -> bool
    ensures { result ≡ ltb (a + b) (2 ^ 64) }
{
    b <= limit::ALL_BITS - a
}

// Whether the sums of counts side by side all fit.
#[tactic(auto, using(crate::proofs::Adds::tried_start, crate::proofs::Adds::tried_next, crate::proofs::Adds::tried_all, crate::proofs::Adds::tried_none))]
fn all_fit(a: &[u64], b: &[u64]) -> bool
    requires { length a.now ≡ length b.now }
    ensures { result ≡ all_fit (add_each a.now b.now) }
{
    for (i, x) in a.iter().enumerate() {
        if !fit(*x, b[i]) {
            return false;
        }
    }
    true
}

// Each count of b added to that of a.
#[tactic(auto, using(crate::proofs::Adds::adding_fits, crate::proofs::Adds::adding_next, crate::proofs::Adds::adding_end))]
fn add_each(a: &mut [u64], b: &[u64])
    requires { Addable a.old b.now }
    ensures { a.new ≡ add_each a.old b.now }
{
    for (i, y) in b.iter().enumerate() {
        a[i] += *y;
    }
}

// Whether all twenty sums fit.
#[tactic(auto, using(crate::proofs::Adds::parts_fit))]
fn sums_fit(a: &Tally, b: &Tally) -> bool
    ensures { result ≡ fits (sum a.now b.now) }
{
    all_fit(&a.units, &b.units)
        && all_fit(&a.maps, &b.maps)
        && fit(a.events, b.events)
        && fit(a.statements, b.statements)
        && fit(a.max, b.max)
        && fit(a.methods, b.methods)
}

// Count by count.
#[tactic(auto, unfolding(rules_tally::specs::Calls::sum))]
fn added(mut a: Tally, b: &Tally) -> Tally
    requires { fits (sum a b.now) ≡ true }
    ensures { result ≡ sum a b.now }
{
    add_each(&mut a.units, &b.units);
    add_each(&mut a.maps, &b.maps);
    a.events += b.events;
    a.statements += b.statements;
    a.max += b.max;
    a.methods += b.methods;
    a
}

// Both tallies together; where a count passes 64 bits, 70 and the first as it was.
#[tactic(auto, unfolding(rules_tally::specs::Calls::joined))]
pub fn join(first: Tally, second: Tally) -> Result<Tally, CountTooLarge>
    ensures { result ≡ joined first second }
{
    if !sums_fit(&first, &second) {
        return Err(CountTooLarge { first });
    }
    Ok(added(first, &second))
}
