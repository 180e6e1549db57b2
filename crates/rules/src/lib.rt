// The plain data that the definitions and the code share: places, refusals, endings, tables and answers, and the names of numbers.
pub mod fact;
pub mod fits;
pub mod kind;
pub mod limit;
pub mod node;
pub mod node_kind;
pub mod row;

ghost use Rattle.std.specs.Prelude.{◌≡◌};
ghost use Rattle.rules.specs.declared.Reason.TheVariants as reason;
ghost use Rattle.rules.specs.Outcomes.{unread, unparsed};
ghost use Rattle.rules.specs.Back.{lexical_from};
ghost use Rattle.rules.specs.Text.{start_place, moved, along, Roomy};

// Line, column and offset are three counters and never stand in for one another.
#[derive(Clone, Copy)]
pub struct Offset(pub u32);

#[derive(Clone, Copy)]
pub struct Line(pub u32);

#[derive(Clone, Copy)]
pub struct Column(pub u32);

// A place of a text, and the cursor of whoever reads it.
#[derive(Clone, Copy)]
pub struct Cursor {
    pub offset: Offset,
    pub line: Line,
    pub column: Column,
}

impl Cursor {
    // The place before the first byte.
    pub fn start() -> Cursor
        ensures { result ≡ start_place }
    {
        Cursor {
            offset: Offset(0),
            line: Line(1),
            column: Column(1),
        }
    }

    // The cursor behind a byte that stands at it.
    pub fn advance(self, byte: u8) -> Cursor
        requires { Roomy 1 self }
        ensures { result ≡ moved self byte }
    {
        let offset = Offset(self.offset.0 + 1);
        if byte == b'\n' {
            return Cursor {
                offset,
                line: Line(self.line.0 + 1),
                column: Column(1),
            };
        }
        let line = self.line;
        Cursor {
            offset,
            line,
            column: Column(self.column.0 + 1),
        }
    }

    // The cursor behind n bytes of its line.
    pub fn onward(self, n: u32) -> Cursor
        requires { Roomy n self }
        ensures { result ≡ along self n }
    {
        let line = self.line;
        Cursor {
            offset: Offset(self.offset.0 + n),
            line,
            column: Column(self.column.0 + n),
        }
    }
}

// Why a text cannot be read on, refusals 11 to 17.
#[derive(Clone, Copy)]
pub enum Lexical {
    NoRowBegins = 11,
    OpenComment = 12,
    OpenString = 13,
    BadEscape = 14,
    NumberTooLarge = 15,
    LoneSign = 16,
    NoHexDigit = 17,
}

// A number that is no lexical refusal's.
#[derive(Clone, Copy)]
pub struct NotLexical(pub u32);

impl TryFrom<u32> for Lexical {
    type Error = NotLexical;

    ghost try_from_gives = { λ number got. got ≡ lexical_from number };

    #[tactic(auto, unfolding(crate::specs::Back::lexical_of))]
    fn try_from(number: u32) -> Result<Lexical, NotLexical> {
        match number {
            11 => Ok(Lexical::NoRowBegins),
            12 => Ok(Lexical::OpenComment),
            13 => Ok(Lexical::OpenString),
            14 => Ok(Lexical::BadEscape),
            15 => Ok(Lexical::NumberTooLarge),
            16 => Ok(Lexical::LoneSign),
            17 => Ok(Lexical::NoHexDigit),
            _ => Err(NotLexical(number)),
        }
    }
}

// Why a text cannot be read on, and where.
#[derive(Clone, Copy)]
pub struct Halt {
    pub why: Lexical,
    pub at: Cursor,
}

// How a table ends: at the text's end, or where the text cannot be read on.
pub type Ending = Option<Halt>;

// What stands beside a table's rows.
#[derive(Clone, Copy)]
pub struct Table {
    pub count: u32,
    pub length: u32,
    pub ending: Ending,
}

// Refusals 1 to 7: what is wrong with what a call was lent, or lacks.
#[derive(Clone, Copy)]
pub enum Outer {
    TextTooLong = 1,
    BadByte = 2,
    NotWellFormed = 3,
    NoRowRoom = 4,
    NoNodeRoom = 5,
    EditNotSensible = 6,
    WindowShort = 7,
}

// Why a call has not what it asks for, and where.
#[derive(Clone, Copy)]
pub struct Unfit {
    pub why: Outer,
    pub at: Cursor,
}

// Why a scan or an edit is refused and where, and how many rows are written.
#[derive(Clone, Copy)]
pub struct Unread {
    pub why: Outer,
    pub at: Cursor,
    pub rows: u32,
}

// What a scan or an edit tells: what stands beside the rows that are written, or why the call is refused.
pub type Told = Result<Table, Unread>;

impl From<Unfit> for Unread {
    ghost from_gives = { λ e told. told ≡ unread e.why e.at 0 };

    fn from(e: Unfit) -> Unread {
        Unread {
            why: e.why,
            at: e.at,
            rows: 0,
        }
    }
}

// Why rows are no program. The kinds that would have fitted, a bit for each: 0 to 31, and from 32 on; a map's field, 1 to 4.
#[derive(Clone, Copy)]
pub enum Syntax {
    Wanted(u32, u32),
    NotTopLevel,
    NotMapField,
    MapTypeUnknown,
    NotType,
    MaxNegative,
    OutOfRange,
    ShiftCount,
    MapLacks(u32),
    NotEventType,
    CallOnOther,
    TooDeep,
}

// Why a parse is refused.
#[derive(Clone, Copy)]
pub enum Reason {
    Outer(Outer),
    Lexical(Lexical),
    Syntax(Syntax),
}

// Why a parse is refused and where, and for 21 the kind that was found (else 0).
#[derive(Clone, Copy)]
pub struct Unparsed {
    pub why: Reason,
    pub at: Cursor,
    pub found: u32,
}

// What a parse tells: how many nodes are written, or why none is.
pub type Parsed = Result<u32, Unparsed>;

impl From<Unfit> for Unparsed {
    ghost from_gives = { λ e told. told ≡ unparsed (reason.Outer e.why) e.at 0 };

    fn from(e: Unfit) -> Unparsed {
        Unparsed {
            why: Reason::Outer(e.why),
            at: e.at,
            found: 0,
        }
    }
}
