// Maps: fields repeat freely, the last holds; after `}` the required ones are asked for.
#![tactic(auto)]

ghost use Rattle.std.specs.Prelude.{◌≡◌, true, cond, ◌+◌, ◌*◌, ◌≤◌, length, Some};
ghost use Rattle.rules.specs.Kinds.{KeywordType, KeywordMax, same_bytes};
ghost use Rattle.rules.specs.Tree.{map_type_number, shift_bits};
ghost use Rattle.rules.specs.Parse.{is_typed};
ghost use Rattle.parse_nodes.specs.Post.{Asks, AsksOpen, most_rows};
ghost use Rattle.parse_nodes.specs.Names.{Spans};
ghost use Rattle.parse_maps.specs.Steps.{bits_at, AsksRow, ShiftFound, ChainFound, FieldFound, RowsFound, FieldsFound};
ghost use Rattle.parse_maps.specs.Steps.{told, Lacks, map_written, MapMet};

use parse_nodes::{At, Refusal, Words};
use parse_signs::is_shift;
use rules::kind::{
    COLON, DOT, EOF, IDENTIFIER, KEY, MAX, NUMBER, RBRACE, SEMICOLON, SHL, TYPE, TYPE_I64,
    TYPE_U32, VALUE,
};
use rules::{Syntax, fact, fits, limit, node_kind, row};

// What the fields so far give, and the next row.
#[derive(Clone, Copy)]
pub struct Facts {
    pub row: u32,
    pub maptype: Option<u32>,
    pub key: Option<u32>,
    pub value: Option<u32>,
    pub max: Option<u32>,
}

// The value of a max so far, and the next row.
#[derive(Clone, Copy)]
pub struct Sum {
    pub row: u32,
    pub bits: u64,
}

// The value's bits of the number at a row of the table.
fn bits_at(rows: &[u32], row: u32) -> u64
    requires { row * 8 + 8 ≤ length rows.now }
    ensures { result ≡ bits_at rows.now row }
{
    let at = (row as usize) * row::WORDS;
    (rows[at + row::HIGH] as u64) * limit::ABOVE_WORD + (rows[at + row::LOW] as u64)
}

// x shifted by c, left or right, in 64-bit two's complement.
fn shifted(kind: u32, x: u64, c: u64) -> u64
    requires { c ≤ 63 }
    ensures { result ≡ shift_bits kind x c }
{
    if kind == SHL {
        return x << c;
    }
    if x < limit::SIGN_BIT {
        return x >> c;
    }
    limit::ALL_BITS - ((limit::ALL_BITS - x) >> c)
}

// The value of a max with one shift more, whose sign is at the sum's row.
fn shift_step(rows: &[u32], count: u32, s: Sum, kind: u32) -> Result<Sum, Refusal>
    requires { AsksRow rows.now count s.row kind }
    ensures { ShiftFound rows.now count s result }
{
    let number = s.row + 1;
    if parse_nodes::kind_at(rows, count, number) != NUMBER {
        return Err(Refusal::new(parse_nodes::wanted(NUMBER), number));
    }
    let c = bits_at(rows, number);
    if limit::MOST_SHIFT < c {
        return Err(Refusal::new(Syntax::ShiftCount, number));
    }
    Ok(Sum {
        row: number + 1,
        bits: shifted(kind, s.bits, c),
    })
}

// A number and shifts by numbers, from the row on.
fn chain(rows: &[u32], count: u32, row: u32) -> Result<Sum, Refusal>
    requires { Asks rows.now count row 0 0 }
    ensures { ChainFound rows.now count row result }
{
    if parse_nodes::kind_at(rows, count, row) != NUMBER {
        return Err(Refusal::new(parse_nodes::wanted(NUMBER), row));
    }
    let mut s = Sum {
        row: row + 1,
        bits: bits_at(rows, row),
    };
    // Stays: a loop, which goes on behind what was read; a for has no such step.
    loop {
        let sign = parse_nodes::kind_at(rows, count, s.row);
        if !is_shift(sign) {
            return Ok(s);
        }
        s = shift_step(rows, count, s, sign)?;
    }
}

// The facts with `max` at their row.
fn max_field(rows: &[u32], count: u32, f: Facts) -> Result<Facts, Refusal>
    requires { AsksRow rows.now count f.row KeywordMax }
    ensures { RowsFound rows.now count f result }
{
    let colon = f.row + 1;
    if parse_nodes::kind_at(rows, count, colon) != COLON {
        return Err(Refusal::new(parse_nodes::wanted(COLON), colon));
    }
    let s = chain(rows, count, colon + 1)?;
    let end = s.row;
    if limit::SIGN_BIT <= s.bits {
        return Err(Refusal::new(Syntax::MaxNegative, end));
    }
    if limit::MOST_WORD < s.bits {
        return Err(Refusal::new(Syntax::OutOfRange, end - 1));
    }
    if parse_nodes::kind_at(rows, count, end) != SEMICOLON {
        return Err(Refusal::new(parse_nodes::wrong(fits::MAX_ENDS), end));
    }
    Ok(Facts {
        row: end + 1,
        max: Some(s.bits as u32),
        ..f
    })
}

// The facts with `key` or `value`, which the kind says, at their row.
fn typed_field(rows: &[u32], count: u32, f: Facts, kind: u32) -> Result<Facts, Refusal>
    requires { AsksRow rows.now count f.row kind × (is_typed kind ≡ true) }
    ensures { RowsFound rows.now count f result }
{
    let colon = f.row + 1;
    if parse_nodes::kind_at(rows, count, colon) != COLON {
        return Err(Refusal::new(parse_nodes::wanted(COLON), colon));
    }
    let at = colon + 1;
    let t = parse_nodes::kind_at(rows, count, at);
    if t == EOF {
        return Err(Refusal::new(Syntax::NotType, at));
    }
    let end = at + 1;
    if !matches!(t, TYPE_U32..=TYPE_I64) {
        return Err(Refusal::new(Syntax::NotType, end));
    }
    if parse_nodes::kind_at(rows, count, end) != SEMICOLON {
        return Err(Refusal::new(parse_nodes::wanted(SEMICOLON), end));
    }
    let number = Some(parse_nodes::type_number(t));
    let row = end + 1;
    if kind == KEY {
        return Ok(Facts {
            row,
            key: number,
            ..f
        });
    }
    Ok(Facts {
        row,
        value: number,
        ..f
    })
}

// A number where a word is a spelling, and else what those behind it found.
fn named(word: &[u8], spelling: &[u8], number: u32, behind: Option<u32>) -> Option<u32>
    ensures { result ≡ cond (same_bytes spelling.now word.now) (Some number) behind }
{
    if check::same(word, spelling) {
        return Some(number);
    }
    behind
}

// A map type's number, 1 to 5. Bytes are compared where they stand.
// Stays comparisons from the last to the first: with a `return` behind each, spellings were written to the stack on Arm (docs/DECISIONS.md).
fn type_number(word: &[u8]) -> Option<u32>
    ensures { result ≡ told (map_type_number word.now) }
{
    let prog_array = named(word, b"prog_array", fact::MAP_PROG_ARRAY, None);
    let lru_hash = named(word, b"lru_hash", fact::MAP_LRU_HASH, prog_array);
    let ringbuf = named(word, b"ringbuf", fact::MAP_RINGBUF, lru_hash);
    let array = named(word, b"array", fact::MAP_ARRAY, ringbuf);
    named(word, b"hash", fact::MAP_HASH, array)
}

// The facts with `type` at their row. The rows' spellings lie inside the text.
fn type_field(text: &[u8], rows: &[u32], count: u32, f: Facts) -> Result<Facts, Refusal>
    requires { AsksRow rows.now count f.row KeywordType × Spans text.now rows.now count }
    ensures { FieldFound text.now rows.now count f result }
{
    let colon = f.row + 1;
    if parse_nodes::kind_at(rows, count, colon) != COLON {
        return Err(Refusal::new(parse_nodes::wanted(COLON), colon));
    }
    let dot = colon + 1;
    if parse_nodes::kind_at(rows, count, dot) != DOT {
        return Err(Refusal::new(parse_nodes::wanted(DOT), dot));
    }
    let name = dot + 1;
    if parse_nodes::kind_at(rows, count, name) != IDENTIFIER {
        return Err(Refusal::new(parse_nodes::wanted(IDENTIFIER), name));
    }
    let words = (name as usize) * row::WORDS;
    let a = rows[words + row::START] as usize;
    let e = rows[words + row::END] as usize;
    let end = name + 1;
    let maptype = type_number(&text[a..e]);
    if maptype.is_none() {
        return Err(Refusal::new(Syntax::MapTypeUnknown, end));
    }
    if parse_nodes::kind_at(rows, count, end) != SEMICOLON {
        return Err(Refusal::new(parse_nodes::wanted(SEMICOLON), end));
    }
    Ok(Facts {
        row: end + 1,
        maptype,
        ..f
    })
}

// The facts with the field at their row.
fn field(text: &[u8], rows: &[u32], count: u32, f: Facts) -> Result<Facts, Refusal>
    requires { Asks rows.now count f.row 0 0 × Spans text.now rows.now count }
    ensures { FieldFound text.now rows.now count f result }
{
    let k = parse_nodes::kind_at(rows, count, f.row);
    match k {
        TYPE => type_field(text, rows, count, f),
        KEY | VALUE => typed_field(rows, count, f, k),
        MAX => max_field(rows, count, f),
        _ => Err(Refusal::new(Syntax::NotMapField, f.row)),
    }
}

// Fields from the row on, up to `}`, which is not taken.
fn fields(text: &[u8], rows: &[u32], count: u32, row: u32) -> Result<Facts, Refusal>
    requires { Asks rows.now count row 0 0 × Spans text.now rows.now count }
    ensures { FieldsFound text.now rows.now count row result }
{
    let mut f = Facts {
        row,
        maptype: None,
        key: None,
        value: None,
        max: None,
    };
    // Stays: a while loop, which goes on behind what was read; a for has no such step.
    while parse_nodes::kind_at(rows, count, f.row) != RBRACE {
        let at = f.row;
        f = field(text, rows, count, f).map_err(|e: Refusal| e.instead(at, fits::MAP_FIELDS))?;
    }
    Ok(f)
}

// The field that a map lacks, 1 to 4.
fn lacks(f: Facts) -> Option<u32>
    ensures { Lacks f result }
{
    let Some(maptype) = f.maptype else {
        return Some(fact::FIELD_TYPE);
    };
    let keyed = maptype != fact::MAP_RINGBUF;
    if keyed & f.key.is_none() {
        return Some(fact::FIELD_KEY);
    }
    if keyed & f.value.is_none() {
        return Some(fact::FIELD_VALUE);
    }
    if f.max.is_none() {
        return Some(fact::FIELD_MAX);
    }
    None
}

// The map's node, whose name is at a row, from its fields.
fn map_node(nodes: &mut [u32], node: u32, name: u32, f: Facts)
    requires { node ≤ most_rows }
    ensures { nodes.new ≡ map_written name node nodes.old f }
{
    parse_nodes::store(
        nodes,
        node,
        Words {
            kind: node_kind::MAP,
            place: name,
            name,
            children: 0,
            fact0: f.maptype.unwrap_or(0),
            fact1: f.key.unwrap_or(0),
            fact2: f.value.unwrap_or(0),
            fact3: f.max.unwrap_or(0),
        },
    );
}

// The map whose word is at the row.
pub fn map(
    text: &[u8],
    rows: &[u32],
    count: u32,
    nodes: &mut [u32],
    row: u32,
    node: u32,
) -> Result<At, Refusal>
    requires { AsksOpen rows.now count row node 0 × Spans text.now rows.now count }
    ensures { MapMet text.now rows.now count row node nodes.old nodes.new result }
{
    let start = parse_nodes::opened(rows, count, row, node)?;
    let f = fields(text, rows, count, start.row)?;
    let next = f.row + 1;
    if let Some(missing) = lacks(f) {
        return Err(Refusal::new(Syntax::MapLacks(missing), next));
    }
    let name = row + 1;
    map_node(nodes, node, name, f);
    Ok(At::new(next, node + 1, name))
}
