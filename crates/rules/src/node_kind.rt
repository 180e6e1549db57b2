// The kinds of nodes.
// Stays numbers: nodes are words in memory that C lends and reads, any word may stand there, and include/spoonharbor.h names these.
ghost use Rattle.std.specs.Prelude.{◌≡◌};
ghost use Rattle.rules.specs.Nodes.{node_kinds};

pub const VARIABLE: u32 = 1;

pub const NUMBER: u32 = 2;

pub const DEREFERENCE: u32 = 3;

pub const ADD: u32 = 4;

pub const SUB: u32 = 5;

pub const MUL: u32 = 6;

pub const DIV: u32 = 7;

pub const MOD: u32 = 8;

pub const SHL: u32 = 9;

pub const SHR: u32 = 10;

pub const CALL: u32 = 11;

pub const FIELD: u32 = 12;

pub const EXPRESSION: u32 = 13;

pub const ASSIGN: u32 = 14;

pub const ADD_ASSIGN: u32 = 15;

pub const REG: u32 = 16;

pub const IMM: u32 = 17;

pub const HEAP: u32 = 18;

pub const RETURN: u32 = 19;

pub const IF: u32 = 20;

pub const THEN: u32 = 21;

pub const ELSE: u32 = 22;

pub const SECTION: u32 = 23;

pub const LICENSE: u32 = 24;

pub const UNIT: u32 = 25;

pub const EVENT_FIELD: u32 = 26;

pub const EVENT: u32 = 27;

pub const MAP: u32 = 28;

pub const PROGRAM: u32 = 29;

// All of them are the definitions'.
pub fn all() -> [u32; 29]
    ensures { result ≡ node_kinds }
{
    [
        VARIABLE,
        NUMBER,
        DEREFERENCE,
        ADD,
        SUB,
        MUL,
        DIV,
        MOD,
        SHL,
        SHR,
        CALL,
        FIELD,
        EXPRESSION,
        ASSIGN,
        ADD_ASSIGN,
        REG,
        IMM,
        HEAP,
        RETURN,
        IF,
        THEN,
        ELSE,
        SECTION,
        LICENSE,
        UNIT,
        EVENT_FIELD,
        EVENT,
        MAP,
        PROGRAM,
    ]
}
