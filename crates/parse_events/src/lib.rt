// Events: fields of a type, a type with a length or bytes with a length.
#![tactic(auto)]

ghost use Rattle.rules.specs.Parse.{event_field, event_at};
ghost use Rattle.parse_nodes.specs.Post.{Answers, Asks, AsksOpen};
ghost use Rattle.parse_events.specs.Shapes.{LengthFound, TypeFound, ShapeFound, AsksType, AsksFields, FieldsMet};

use parse_nodes::{At, Refusal, Words};
use rules::kind::{
    BYTES, COLON, IDENTIFIER, LBRACKET, NUMBER, RBRACE, RBRACKET, SEMICOLON, TYPE_I64, TYPE_U32,
};
use rules::{Syntax, fact, fits, node_kind, row};

// A field's facts and the row behind it.
// Stays: numbers for its form and its element, which are the words of the field's node.
#[derive(Clone, Copy)]
pub struct Shape {
    pub row: u32,
    pub form: u32,
    pub element: u32,
    pub length: u32,
}

// The length at the row, `]` and `;`, of a field of a form and element.
fn length_at(rows: &[u32], count: u32, row: u32, form: u32, element: u32) -> Result<Shape, Refusal>
    requires { Asks rows.now count row 0 0 }
    ensures { LengthFound rows.now count row form element result }
{
    if parse_nodes::kind_at(rows, count, row) != NUMBER {
        return Err(Refusal::new(parse_nodes::wanted(NUMBER), row));
    }
    let at = (row as usize) * row::WORDS;
    if rows[at + row::HIGH] != 0 {
        return Err(Refusal::new(Syntax::OutOfRange, row));
    }
    let length = rows[at + row::LOW];
    let close = row + 1;
    if parse_nodes::kind_at(rows, count, close) != RBRACKET {
        return Err(Refusal::new(parse_nodes::wanted(RBRACKET), close));
    }
    let end = close + 1;
    if parse_nodes::kind_at(rows, count, end) != SEMICOLON {
        return Err(Refusal::new(parse_nodes::wanted(SEMICOLON), end));
    }
    Ok(Shape {
        row: end + 1,
        form,
        element,
        length,
    })
}

// The type at the row, with a length or without, and `;`.
fn typed_at(rows: &[u32], count: u32, row: u32, kind: u32) -> Result<Shape, Refusal>
    requires { AsksType rows.now count row kind }
    ensures { TypeFound rows.now count row result }
{
    let next = row + 1;
    let element = parse_nodes::type_number(kind);
    match parse_nodes::kind_at(rows, count, next) {
        LBRACKET => length_at(rows, count, next + 1, fact::FORM_ARRAY, element),
        SEMICOLON => Ok(Shape {
            row: next + 1,
            form: fact::FORM_PLAIN,
            element,
            length: 0,
        }),
        _ => Err(Refusal::new(parse_nodes::wrong(fits::FIELD_ENDS), next)),
    }
}

// What stands behind a field's colon.
fn shape_at(rows: &[u32], count: u32, row: u32) -> Result<Shape, Refusal>
    requires { Asks rows.now count row 0 0 }
    ensures { ShapeFound rows.now count row result }
{
    let k = parse_nodes::kind_at(rows, count, row);
    if k == BYTES {
        let open = row + 1;
        if parse_nodes::kind_at(rows, count, open) != LBRACKET {
            return Err(Refusal::new(parse_nodes::wanted(LBRACKET), open));
        }
        return length_at(rows, count, open + 1, fact::FORM_BYTES, 0);
    }
    if matches!(k, TYPE_U32..=TYPE_I64) {
        return typed_at(rows, count, row, k);
    }
    Err(Refusal::new(Syntax::NotEventType, row))
}

// A field at the row.
fn field(rows: &[u32], count: u32, nodes: &mut [u32], row: u32, node: u32) -> Result<At, Refusal>
    requires { Asks rows.now count row node 0 }
    ensures { Answers (λ ts. event_field ts row) rows.now count row node nodes.old
        nodes.new result }
{
    if parse_nodes::kind_at(rows, count, row) != IDENTIFIER {
        return Err(Refusal::new(parse_nodes::wanted(IDENTIFIER), row));
    }
    let colon = row + 1;
    if parse_nodes::kind_at(rows, count, colon) != COLON {
        return Err(Refusal::new(parse_nodes::wanted(COLON), colon));
    }
    let f = shape_at(rows, count, colon + 1)?;
    parse_nodes::store(
        nodes,
        node,
        Words {
            kind: node_kind::EVENT_FIELD,
            place: row,
            name: row,
            children: 0,
            fact0: f.form,
            fact1: f.element,
            fact2: f.length,
            fact3: 0,
        },
    );
    Ok(At::new(f.row, node + 1, row))
}

// The fields of the event whose word is at the row, from the first on up to `}`, and the event's node.
fn fields(rows: &[u32], count: u32, nodes: &mut [u32], row: u32, start: At) -> Result<At, Refusal>
    requires { AsksFields rows.now count row start }
    ensures { FieldsMet rows.now count row start.node nodes.old nodes.new result }
{
    let name = row + 1;
    let mut s = start;
    // Stays: a while loop, which goes on behind what was read; a for has no such step.
    while parse_nodes::kind_at(rows, count, s.row) != RBRACE {
        let at = s.row;
        let t = field(rows, count, nodes, at, s.node).map_err(|e: Refusal| e.instead(
            at,
            fits::EVENT_FIELDS,
        ))?;
        s = t.counted(s.place, s.things + 1);
    }
    parse_nodes::close(nodes, s.node, node_kind::EVENT, name, name, s.things);
    Ok(At::new(s.row + 1, s.node + 1, name))
}

// The event whose word is at the row.
pub fn event(
    rows: &[u32],
    count: u32,
    nodes: &mut [u32],
    row: u32,
    node: u32,
) -> Result<At, Refusal>
    requires { AsksOpen rows.now count row node 0 }
    ensures { Answers (λ ts. event_at ts row) rows.now count row node nodes.old nodes.new result }
{
    let start = parse_nodes::opened(rows, count, row, node)?;
    fields(rows, count, nodes, row, start)
}
