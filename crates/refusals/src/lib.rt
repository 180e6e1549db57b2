// The number of each refusal, and what it tells besides; and the lexical refusal that has a number.
ghost use Rattle.std.specs.Prelude.{◌≡◌, ◌/◌, ◌%◌, ◌^◌};
ghost use Rattle.rules.specs.Refusals.{outer_number, lexical_number, syntax_number, reason_number, first_told, second_told, found_told};
ghost use Rattle.rules.specs.Back.{is_lexical, lexical_of};

use rules::{Lexical, Outer, Reason, Syntax, fits, limit};

// The number of a refusal of the call itself, 1 to 7.
pub fn outer_number(why: Outer) -> u32
    ensures { result ≡ outer_number why }
{
    why as u32
}

// The number of a lexical refusal, 11 to 17.
pub fn lexical_number(lexical: Lexical) -> u32
    ensures { result ≡ lexical_number lexical }
{
    lexical as u32
}

// Whether a number is that of a lexical refusal.
pub fn is_lexical(number: u32) -> bool
    ensures { result ≡ is_lexical number }
{
    Lexical::try_from(number).is_ok()
}

// The lexical refusal of a number; of any other number, that no row begins.
#[tactic(auto, using(crate::proofs::Back::number_else))]
pub fn lexical_of(number: u32) -> Lexical
    ensures { result ≡ lexical_of number }
{
    Lexical::try_from(number).unwrap_or(Lexical::NoRowBegins)
}

// The number of a refusal of the grammar or of a check, 21 to 32.
pub fn syntax_number(why: Syntax) -> u32
    ensures { result ≡ syntax_number why }
{
    match why {
        Syntax::Wanted(_, _) => 21,
        Syntax::NotTopLevel => 22,
        Syntax::NotMapField => 23,
        Syntax::MapTypeUnknown => 24,
        Syntax::NotType => 25,
        Syntax::MaxNegative => 26,
        Syntax::OutOfRange => 27,
        Syntax::ShiftCount => 28,
        Syntax::MapLacks(_) => 29,
        Syntax::NotEventType => 30,
        Syntax::CallOnOther => 31,
        Syntax::TooDeep => 32,
    }
}

// The number of whatever a parse is refused with.
pub fn reason_number(why: Reason) -> u32
    ensures { result ≡ reason_number why }
{
    match why {
        Reason::Outer(x) => outer_number(x),
        Reason::Lexical(x) => lexical_number(x),
        Reason::Syntax(x) => syntax_number(x),
    }
}

// A set's kinds 0 to 31, and those from 32 on.
fn low(set: u64) -> u32
    ensures { result ≡ set % 2 ^ 32 }
{
    (set % limit::ABOVE_WORD) as u32
}

fn high(set: u64) -> u32
    ensures { result ≡ set / 2 ^ 32 }
{
    (set / limit::ABOVE_WORD) as u32
}

// The kinds 0 to 31 that would have fitted, or the field that a map lacks.
pub fn first_told(why: Syntax) -> u32
    ensures { result ≡ first_told why }
{
    match why {
        Syntax::Wanted(first, _) => first,
        Syntax::MapLacks(field) => field,
        Syntax::NotTopLevel => low(fits::TOPS),
        Syntax::NotMapField => low(fits::MAP_FIELDS),
        Syntax::NotType => low(fits::TYPES),
        Syntax::NotEventType => low(fits::EVENT_TYPES),
        _ => 0,
    }
}

// The kinds from 32 on that would have fitted.
pub fn second_told(why: Syntax) -> u32
    ensures { result ≡ second_told why }
{
    match why {
        Syntax::Wanted(_, second) => second,
        Syntax::NotTopLevel => high(fits::TOPS),
        Syntax::NotMapField => high(fits::MAP_FIELDS),
        Syntax::NotType => high(fits::TYPES),
        Syntax::NotEventType => high(fits::EVENT_TYPES),
        _ => 0,
    }
}

// The kind that 21 found at a row of a kind, 0 for any other refusal.
pub fn found_told(why: Syntax, kind: u32) -> u32
    ensures { result ≡ found_told why kind }
{
    match why {
        Syntax::Wanted(_, _) => kind,
        _ => 0,
    }
}
