// The kinds of rows: `TokenKind` numbered in source order.
// Stays numbers: rows are words in memory that C lends and reads, any word may stand there, and include/spoonharbor.h names these.
ghost use Rattle.std.specs.Prelude.{◌≡◌};
ghost use Rattle.rules.specs.Kinds.{row_kinds};

pub const UNIT: u32 = 0;

pub const SECTION: u32 = 1;

pub const LICENSE: u32 = 2;

pub const RETURN: u32 = 3;

pub const REG: u32 = 4;

pub const IMM: u32 = 5;

pub const MAP: u32 = 6;

pub const TYPE: u32 = 7;

pub const KEY: u32 = 8;

pub const VALUE: u32 = 9;

pub const MAX: u32 = 10;

pub const IF: u32 = 11;

pub const ELSE: u32 = 12;

pub const GUARD: u32 = 13;

pub const HEAP: u32 = 14;

pub const EVENT: u32 = 15;

pub const TYPE_U32: u32 = 21;

pub const TYPE_U64: u32 = 22;

pub const TYPE_I32: u32 = 23;

pub const TYPE_I64: u32 = 24;

pub const LBRACE: u32 = 25;

pub const RBRACE: u32 = 26;

pub const LPAREN: u32 = 27;

pub const RPAREN: u32 = 28;

pub const COLON: u32 = 29;

pub const DOT: u32 = 30;

pub const COMMA: u32 = 31;

pub const SEMICOLON: u32 = 32;

pub const LBRACKET: u32 = 33;

pub const RBRACKET: u32 = 34;

pub const EQUALS: u32 = 35;

pub const PLUS_EQUALS: u32 = 36;

pub const MINUS_EQUALS: u32 = 37;

pub const STAR_EQUALS: u32 = 38;

pub const SLASH_EQUALS: u32 = 39;

pub const PERCENT_EQUALS: u32 = 40;

pub const PLUS: u32 = 41;

pub const MINUS: u32 = 42;

pub const STAR: u32 = 43;

pub const SLASH: u32 = 44;

pub const PERCENT: u32 = 45;

pub const SHR: u32 = 46;

pub const SHL: u32 = 47;

pub const IDENTIFIER: u32 = 48;

pub const STRING: u32 = 49;

pub const NUMBER: u32 = 50;

pub const BYTES: u32 = 51;

pub const EOF: u32 = 52;

// No kind from the first to the last of these is made.
pub const FIRST_UNMADE: u32 = 16;

pub const LAST_UNMADE: u32 = 20;

// How many kinds are numbered.
pub const KINDS: usize = EOF as usize + 1;

// All of them are the definitions'.
pub fn all() -> [u32; 50]
    ensures { result ≡ row_kinds }
{
    [
        UNIT,
        SECTION,
        LICENSE,
        RETURN,
        REG,
        IMM,
        MAP,
        TYPE,
        KEY,
        VALUE,
        MAX,
        IF,
        ELSE,
        GUARD,
        HEAP,
        EVENT,
        TYPE_U32,
        TYPE_U64,
        TYPE_I32,
        TYPE_I64,
        LBRACE,
        RBRACE,
        LPAREN,
        RPAREN,
        COLON,
        DOT,
        COMMA,
        SEMICOLON,
        LBRACKET,
        RBRACKET,
        EQUALS,
        PLUS_EQUALS,
        MINUS_EQUALS,
        STAR_EQUALS,
        SLASH_EQUALS,
        PERCENT_EQUALS,
        PLUS,
        MINUS,
        STAR,
        SLASH,
        PERCENT,
        SHR,
        SHL,
        IDENTIFIER,
        STRING,
        NUMBER,
        BYTES,
        EOF,
        FIRST_UNMADE,
        LAST_UNMADE,
    ]
}
