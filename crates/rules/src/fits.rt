// Sets of row kinds, bit k for kind k, as sums of named pieces.
ghost use Rattle.std.specs.Prelude.{◌≡◌};
ghost use Rattle.rules.specs.Names.{pieces};

use crate::kind;

// What begins an expression.
pub const OPERANDS: u64 = (1 << kind::LPAREN)
    + (1 << kind::STAR)
    + (1 << kind::IDENTIFIER)
    + (1 << kind::NUMBER);

// What begins a statement that begins with no expression.
pub const STATEMENTS: u64 = (1 << kind::RETURN)
    + (1 << kind::REG)
    + (1 << kind::IMM)
    + (1 << kind::IF)
    + (1 << kind::HEAP);

// What a unit holds beside statements.
pub const TEXTS: u64 = (1 << kind::SECTION) + (1 << kind::LICENSE);

// What goes on with every expression, and what with those in which no sum was read.
pub const ONS: u64 = (1 << kind::DOT)
    + (1 << kind::STAR)
    + (1 << kind::SLASH)
    + (1 << kind::PERCENT)
    + (1 << kind::PLUS)
    + (1 << kind::MINUS);

pub const SHIFTS: u64 = (1 << kind::SHR) + (1 << kind::SHL);

pub const ASSIGNS: u64 = (1 << kind::EQUALS) + (1 << kind::PLUS_EQUALS);

// A call's first argument, or `)`.
pub const FIRST_ARGUMENTS: u64 = OPERANDS + (1 << kind::RPAREN);

// Lists: what begins a thing of theirs, or ends them.
pub const BODY_THINGS: u64 = OPERANDS + STATEMENTS + (1 << kind::RBRACE);

pub const UNIT_THINGS: u64 = BODY_THINGS + TEXTS;

pub const EVENT_FIELDS: u64 = (1 << kind::IDENTIFIER) + (1 << kind::RBRACE);

// What may stand behind an expression in a group, in an argument list, and as a statement; behind a `max`, and a type of an event's field;
// `;` alone; and `else`.
pub const RPAREN: u64 = 1 << kind::RPAREN;

pub const LPAREN: u64 = 1 << kind::LPAREN;

pub const ARGUMENT_ENDS: u64 = RPAREN + (1 << kind::COMMA);

pub const EFFECT_ENDS: u64 = SEMICOLON + ASSIGNS;

pub const MAX_ENDS: u64 = SEMICOLON + SHIFTS;

pub const FIELD_ENDS: u64 = SEMICOLON + (1 << kind::LBRACKET);

pub const SEMICOLON: u64 = 1 << kind::SEMICOLON;

pub const ELSE: u64 = 1 << kind::ELSE;

// What 22, 23, 25 and 30 tell.
pub const TOPS: u64 = (1 << kind::UNIT) + (1 << kind::MAP) + (1 << kind::EVENT) + (1 << kind::EOF);

pub const MAP_FIELDS: u64 = (1 << kind::TYPE)
    + (1 << kind::KEY)
    + (1 << kind::VALUE)
    + (1 << kind::MAX)
    + (1 << kind::RBRACE);

pub const TYPES: u64 = (1 << kind::TYPE_U32)
    + (1 << kind::TYPE_U64)
    + (1 << kind::TYPE_I32)
    + (1 << kind::TYPE_I64);

pub const EVENT_TYPES: u64 = TYPES + (1 << kind::BYTES);

const ALL: [u64; 14] = [
    OPERANDS,
    STATEMENTS,
    TEXTS,
    ONS,
    SHIFTS,
    ASSIGNS,
    FIRST_ARGUMENTS,
    BODY_THINGS,
    UNIT_THINGS,
    EVENT_FIELDS,
    TOPS,
    MAP_FIELDS,
    TYPES,
    EVENT_TYPES,
];

// All of them are the definitions'.
pub fn all() -> [u64; 14]
    ensures { result ≡ pieces }
{
    ALL
}
