// One row: its words, and the tests that a well-formed table makes of it, of the next row and of a place behind it.
ghost use Rattle.std.specs.Prelude.{◌≡◌, ◌+◌, ◌*◌, ◌≤◌, true, ◌&&◌, [], ◌++◌, length, drop, slice_index};
ghost use Rattle.rules.specs.Rows.{row_in, row_words, row_place, value_fits, place_fits, lines_fit, row_fits};
ghost use Rattle.rows.specs.Shape.{LengthTable, as_row, behind, fits_after, stands_on};

use rules::{Column, Cursor, Line, Offset, kind, limit, row};

// A row is eight words.
#[derive(Clone, Copy)]
pub struct Row {
    pub kind: u32,
    pub start: u32,
    pub end: u32,
    pub line: u32,
    pub column: u32,
    pub low: u32,
    pub high: u32,
    pub comments: u32,
}

impl Row {
    // Row i of a table.
    pub fn at(rows: &[u32], i: usize) -> Row
        requires { i * 8 + 8 ≤ length rows.now }
        ensures { as_row result ≡ row_in (drop (8 * i) rows.now) }
    {
        let base = i * row::WORDS;
        Row {
            kind: rows[base + row::KIND],
            start: rows[base + row::START],
            end: rows[base + row::END],
            line: rows[base + row::LINE],
            column: rows[base + row::COLUMN],
            low: rows[base + row::LOW],
            high: rows[base + row::HIGH],
            comments: rows[base + row::COMMENTS],
        }
    }

    // A row of zeros, which stands for the row before the first: the first row's gap starts at 0.
    pub fn none() -> Row
        ensures { as_row result ≡ row_in [] }
    {
        Row {
            kind: 0,
            start: 0,
            end: 0,
            line: 0,
            column: 0,
            low: 0,
            high: 0,
            comments: 0,
        }
    }

    // Its words into the first eight.
    pub fn put(self, words: &mut [u32])
        requires { 8 ≤ length words.old }
        ensures { words.new ≡ row_words (as_row self) ++ drop 8 words.old }
    {
        words[row::KIND] = self.kind;
        words[row::START] = self.start;
        words[row::END] = self.end;
        words[row::LINE] = self.line;
        words[row::COLUMN] = self.column;
        words[row::LOW] = self.low;
        words[row::HIGH] = self.high;
        words[row::COMMENTS] = self.comments;
    }

    // Where it starts.
    pub fn place(self) -> Cursor
        ensures { result ≡ row_place (as_row self) }
    {
        Cursor {
            offset: Offset(self.start),
            line: Line(self.line),
            column: Column(self.column),
        }
    }

    // Whether its value is one of 64 bits but the least, and zero unless Number.
    fn value_fits(self) -> bool
        ensures { result ≡ value_fits (as_row self) }
    {
        let bits = u64::from(self.high) * limit::ABOVE_WORD + u64::from(self.low);
        (bits != limit::SIGN_BIT) & ((self.kind == kind::NUMBER) | (bits == 0))
    }

    // Whether it fits by itself and may stand behind row r, its comments in the gap between them: one conjunction from left to right, so
    // that the compiler makes one chain of comparisons of it. A difference that would fall below 0 is larger than every word, taken around
    // 2^64, so that one comparison tells that a line or a column is 1 or more and not over the offset + 1, and one that a length is not
    // too short or too long.
    pub fn fits_behind(self, least: &[u32; kind::KINDS], span: &[u32; kind::KINDS], r: Row) -> bool
        requires { (self.kind ≤ 52) × LengthTable least.now span.now }
        ensures { result ≡ (row_fits (as_row self) && fits_after (as_row r) (as_row self)) }
    {
        let start = u64::from(self.start);
        let shortest = start + u64::from(own_length(least, self.kind));
        let over = u64::from(self.end).wrapping_sub(shortest);
        let spans = self.value_fits() & (over < u64::from(own_length(span, self.kind)));
        let line = u64::from(self.line).wrapping_sub(1);
        let column = u64::from(self.column).wrapping_sub(1);
        let place = (spans & (line <= start)) & (column <= start);
        let gap = u64::from(r.end) + u64::from(self.comments) * SHORTEST_COMMENT;
        (place & (gap <= start)) & lines_fit(r.place(), self.place())
    }

    // Whether it is no Eof, and fits where it stands behind row r.
    pub fn stands_on(self, least: &[u32; kind::KINDS], span: &[u32; kind::KINDS], r: Row) -> bool
        requires { LengthTable least.now span.now }
        ensures { result ≡ stands_on (as_row r) (as_row self) }
    {
        self.kind < kind::EOF && self.fits_behind(least, span, r)
    }

    // Whether a place may stand behind it.
    pub fn is_before(self, p: Cursor) -> bool
        ensures { result ≡ behind (as_row self) p }
    {
        (self.end <= p.offset.0) & lines_fit(self.place(), p)
    }
}

// How long the spelling of each kind is at least.
pub const LEAST: [u32; kind::KINDS] = [
    4, 7, 7, 6, 3, 3, 3, 4, 3, 5, 3, 2, 4, 5, 4, 5, 1, 1, 1, 1, 1, 3, 3, 3, 3, 1, 1, 1, 1, 1, 1, 1,
    1, 1, 1, 1, 2, 2, 2, 2, 2, 1, 1, 1, 1, 1, 2, 2, 1, 2, 1, 5, 0,
];

// How many lengths, from the least on, the spelling of each kind may have: one where it is fixed, none where the kind is not made.
pub const SPAN: [u32; kind::KINDS] = [
    1,
    1,
    1,
    1,
    1,
    1,
    1,
    1,
    1,
    1,
    1,
    1,
    1,
    1,
    1,
    1,
    0,
    0,
    0,
    0,
    0,
    1,
    1,
    1,
    1,
    1,
    1,
    1,
    1,
    1,
    1,
    1,
    1,
    1,
    1,
    1,
    1,
    1,
    1,
    1,
    1,
    1,
    1,
    1,
    1,
    1,
    1,
    1,
    u32::MAX,
    u32::MAX,
    u32::MAX,
    1,
    1,
];

// How long a comment is at least: `//`, and nothing behind it.
const SHORTEST_COMMENT: u64 = 2;

// How long the spelling of a kind is by a table of lengths.
fn own_length(lengths: &[u32; kind::KINDS], kind: u32) -> u32
    requires { kind ≤ 52 }
    ensures { result ≡ slice_index lengths.now kind }
{
    lengths[kind as usize]
}

// Whether a place has a line and a column of 1 or more, and neither over its offset + 1.
pub fn place_fits(p: Cursor) -> bool
    ensures { result ≡ place_fits p }
{
    let most = u64::from(p.offset.0) + 1;
    let line = p.line.0;
    let column = p.column.0;
    ((1 <= line) & (1 <= column)) & ((u64::from(line) <= most) & (u64::from(column) <= most))
}

// Whether lines don't fall from a place to the next, and the columns of one line go with the offsets: from the one to the other the
// difference of column and offset, taken around 2^64, stays.
fn lines_fit(p: Cursor, q: Cursor) -> bool
    ensures { result ≡ lines_fit p q }
{
    let from = p.line.0;
    let to = q.line.0;
    let left = u64::from(q.column.0).wrapping_sub(u64::from(q.offset.0));
    let right = u64::from(p.column.0).wrapping_sub(u64::from(p.offset.0));
    (from <= to) & ((to != from) | (left == right))
}
