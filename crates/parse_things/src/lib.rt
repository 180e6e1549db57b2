// What would have fitted in a list of statements, or of a unit's things.
#![tactic(auto)]

ghost use Rattle.std.specs.Prelude.{◌≡◌, cond, ◌+◌, ◌^◌, ◌<◌};
ghost use Rattle.rules.specs.Kinds.{KeywordElse};
ghost use Rattle.rules.specs.Fits.{only};

use rules::fits;

// What would have fitted in place of the first row of one of a list's things, which these kinds begin: behind an `if` without `else`, `else`
// too.
pub fn things(kinds: u64, hanging: bool) -> u64
    requires { kinds < 2 ^ 53 }
    ensures { result ≡ kinds + cond hanging (only KeywordElse) 0 }
{
    if hanging {
        return kinds + fits::ELSE;
    }
    kinds
}
