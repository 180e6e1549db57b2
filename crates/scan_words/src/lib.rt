// Bytes and words: what a byte begins, the kinds of signs, and the reserved words.
#![tactic(auto)]

pub mod classes;
pub mod slots;
pub mod words;

ghost use Rattle.std.specs.Prelude.{◌≡◌, ◌≢◌, [], ◌∷◌, true, false, cond, eqb, Some, None, MatchOption};
ghost use Rattle.rules.specs.Kinds.{Eof, signs, kind_in};
ghost use Rattle.rules.specs.Lex.{is_digit, is_lone, maybe_two};

use rules::kind;

// Whether a byte is a decimal digit.
#[tactic(auto, unfolding(rules::specs::Lex::is_digit))]
pub fn is_digit(b: u8) -> bool
    ensures { result ≡ is_digit b }
{
    matches!(b, b'0'..=b'9')
}

// The kind of a sign of one byte that may be the first of two.
pub fn one_sign(b: u8) -> u32
    requires { (maybe_two b ≡ true) × (is_lone b ≡ false) }
    ensures { result ≡ kind_in signs Eof (b ∷ []) }
{
    match b {
        b'+' => kind::PLUS,
        b'-' => kind::MINUS,
        b'*' => kind::STAR,
        b'/' => kind::SLASH,
        _ => kind::PERCENT,
    }
}

// A kind where a byte is the wanted one.
fn followed(x: u8, wanted: u8, kind: u32) -> Option<u32>
    ensures { result ≡ cond (eqb wanted x) (Some kind) None }
{
    (wanted == x).then_some(kind)
}

// The kind of a sign of two bytes, if they are one.
pub fn two_sign(b: u8, x: u8) -> Option<u32>
    ensures { MatchOption result
        (kind_in signs Eof (b ∷ x ∷ []) ≡ Eof)
        (λ k. (k ≡ kind_in signs Eof (b ∷ x ∷ [])) × (k ≢ Eof)) }
{
    match b {
        b'+' => followed(x, b'=', kind::PLUS_EQUALS),
        b'-' => followed(x, b'=', kind::MINUS_EQUALS),
        b'*' => followed(x, b'=', kind::STAR_EQUALS),
        b'/' => followed(x, b'=', kind::SLASH_EQUALS),
        b'%' => followed(x, b'=', kind::PERCENT_EQUALS),
        b'>' => followed(x, b'>', kind::SHR),
        b'<' => followed(x, b'<', kind::SHL),
        _ => None,
    }
}
