// The token reader's one call, and the reason that a refusal's code tells.
ghost use Rattle.std.specs.Prelude.{◌≡◌, ◌≤◌, ◌<◌, length, get_or, drop};
ghost use Rattle.rules.specs.declared.Lexical.{Lexical};
ghost use Rattle.rules.specs.Lex.{item};
ghost use Rattle.scan_words.specs.Class.{class_of, Classes};
ghost use Rattle.scan_reader.specs.Brief.{Rare, refusal_code, told};

use crate::pieces::{dash, plain_number, sign, slash, string, told, word};
use crate::{Brief, codes};
use rules::Lexical;
use scan_words::classes;

// What a byte begins that most bytes do not begin: a blank, a comment, a number or a sign behind `-`, a string, or nothing.
fn rare(text: &[u8], at: usize, class: u8, whole: bool) -> Brief
    requires { (at < length text.now) × ((class ≡ class_of (get_or text.now at 0)) × Rare class) }
    ensures { result ≡ told (drop at text.now) (item whole (drop at text.now)) }
{
    match class {
        classes::BLANK => told(codes::BLANK, 1),
        classes::SLASH => slash(text, at, whole),
        classes::DASH => dash(text, at, whole),
        classes::QUOTE => string(text, at, whole),
        _ => told(codes::NO_ROW_BEGINS, 0),
    }
}

// What stands at an index. `whole`: the bytes end the text. Where they may stop short of its end, what they do not settle is unknown.
pub fn brief(classes: &[u8; 256], text: &[u8], at: usize, whole: bool) -> Brief
    requires { Classes classes.now × (at ≤ length text.now) }
    ensures { result ≡ told (drop at text.now) (item whole (drop at text.now)) }
{
    if text.len() <= at {
        if whole {
            return told(codes::END, 0);
        }
        return told(codes::UNKNOWN, 0);
    }
    let class = classes[text[at] as usize];
    if class == classes::LETTER {
        return word(classes, text, at, whole);
    }
    if classes::SIGNS < class {
        return told((class - classes::SIGNS) as u32, 1);
    }
    if class == classes::DOUBLE {
        return sign(text, at, whole);
    }
    if class == classes::DIGIT {
        return plain_number(text, at, whole);
    }
    rare(text, at, class, whole)
}

// The reason that a refusal's code tells.
pub fn reason(kind: u32) -> Lexical
    ensures { (why : Lexical) → kind ≡ refusal_code why → result ≡ why }
{
    match kind {
        codes::NO_ROW_BEGINS => Lexical::NoRowBegins,
        codes::LONE_SIGN => Lexical::LoneSign,
        codes::NO_HEX_DIGIT => Lexical::NoHexDigit,
        codes::OPEN_COMMENT => Lexical::OpenComment,
        codes::OPEN_STRING => Lexical::OpenString,
        codes::BAD_ESCAPE => Lexical::BadEscape,
        _ => Lexical::NumberTooLarge,
    }
}
