// Units: statements, sections and licences in any order. The first section gives the kind, the last licence holds.
#![tactic(auto)]

ghost use Rattle.std.specs.Prelude.{◌≡◌, ◌+◌, ◌-◌, ◌*◌, ◌≤◌, ◌<◌, length, take, drop};
ghost use Rattle.std.specs.Option.{unwrap_or};
ghost use Rattle.std.proofs.lemmas.List.Edits.{sets};
ghost use Rattle.rules.specs.Nodes.{NodeUnit, fact_node, node_words, missing};
ghost use Rattle.parse_nodes.specs.Post.{state_at, AsksOpen, most_rows};
ghost use Rattle.parse_nodes.specs.Names.{Spans};
ghost use Rattle.parse_units.specs.Contents.{Texted, ItemMet, ItemsMet, UnitMet};
ghost use Rattle.parse_units.specs.Contents.{AsksItem, AsksItems, AsksText, AsksQuoted};

use parse_nodes::{At, Refusal, Words};
use parse_sections::first_kind;
use parse_things::things;
use rules::kind::{LICENSE, RBRACE, SECTION, SEMICOLON, STRING};
use rules::{fact, fits, limit, node, node_kind};

// Where the parser stands in a unit's contents, the kind that the first section gives, and the row of the last licence's string.
#[derive(Clone, Copy)]
pub struct Contents {
    pub at: At,
    pub kind: Option<u32>,
    pub licence: Option<u32>,
}

// The contents with the section or the licence, which the word says, at their row.
fn with_text(text: &[u8], rows: &[u32], nodes: &mut [u32], u: Contents, word: u32) -> Contents
    requires { AsksQuoted text.now rows.now u word }
    ensures { Texted text.now rows.now u word nodes.old nodes.new result }
{
    let string = u.at.row + 1;
    let n = u.at.node;
    let at = At {
        things: u.at.things + 1,
        ..At::new(string + 1 + 1, n + 1, u.at.place)
    };
    if word == LICENSE {
        parse_nodes::close(nodes, n, node_kind::LICENSE, string, string, 0);
        return Contents {
            at,
            licence: Some(string),
            ..u
        };
    }
    parse_nodes::close(nodes, n, node_kind::SECTION, string, string, 0);
    Contents {
        at,
        kind: Some(first_kind(text, rows, string, u.kind)),
        ..u
    }
}

// The contents with the section or the licence, which the word says, at their row, if it is whole.
fn text_item(
    text: &[u8],
    rows: &[u32],
    count: u32,
    nodes: &mut [u32],
    u: Contents,
    word: u32,
) -> Result<Contents, Refusal>
    requires { AsksText text.now rows.now count u word }
    ensures { ItemMet text.now rows.now count u nodes.old nodes.new result }
{
    let string = u.at.row + 1;
    parse_nodes::want(rows, count, string, STRING)?;
    parse_nodes::want(rows, count, string + 1, SEMICOLON)?;
    Ok(with_text(text, rows, nodes, u, word))
}

// The contents with the statement, the section or the licence at their row.
fn item(
    text: &[u8],
    rows: &[u32],
    count: u32,
    nodes: &mut [u32],
    u: Contents,
) -> Result<Contents, Refusal>
    requires { AsksItem text.now rows.now count u }
    ensures { ItemMet text.now rows.now count u nodes.old nodes.new result }
{
    let row = u.at.row;
    let k = parse_nodes::kind_at(rows, count, row);
    if matches!(k, SECTION | LICENSE) {
        return text_item(text, rows, count, nodes, u, k);
    }
    let t = parse_stmt::stmt(rows, count, nodes, row, u.at.node, limit::MOST_OPEN)?;
    Ok(Contents {
        at: t.counted(u.at.place, u.at.things + 1),
        ..u
    })
}

// The contents from the first thing on, up to `}`, which is not taken.
fn items(
    text: &[u8],
    rows: &[u32],
    count: u32,
    nodes: &mut [u32],
    start: At,
) -> Result<Contents, Refusal>
    requires { AsksItems text.now rows.now count start }
    ensures { ItemsMet text.now rows.now count start nodes.old nodes.new result }
{
    let mut u = Contents {
        at: start,
        kind: None,
        licence: None,
    };
    // Stays: a while loop, which goes on behind what was read; a for has no such step.
    while parse_nodes::kind_at(rows, count, u.at.row) != RBRACE {
        let here = u.at;
        u = match item(text, rows, count, nodes, u) {
            Ok(v) => v,
            Err(e) => {
                return Err(e.instead(here.row, things(fits::UNIT_THINGS, here.hanging)));
            }
        };
    }
    Ok(u)
}

// The node of the unit whose word is at a row, over its contents, and the state behind it.
fn unit_node(nodes: &mut [u32], row: u32, u: Contents) -> At
    requires { (row < most_rows) × ((u.at.row ≤ most_rows) × (u.at.node ≤ most_rows)) }
    ensures { (result ≡ state_at (u.at.row + 1) (u.at.node + 1) row)
        × (nodes.new
        ≡ sets nodes.old (8 * u.at.node)
        (node_words
        (fact_node NodeUnit row (row + 1) u.at.things (unwrap_or u.kind 10)
        (unwrap_or u.licence missing) 0 0))) }
{
    parse_nodes::store(
        nodes,
        u.at.node,
        Words {
            kind: node_kind::UNIT,
            place: row,
            name: row + 1,
            children: u.at.things,
            fact0: u.kind.unwrap_or(fact::PROGRAM_UNKNOWN),
            fact1: u.licence.unwrap_or(node::MISSING),
            fact2: 0,
            fact3: 0,
        },
    );
    At::new(u.at.row + 1, u.at.node + 1, row)
}

// The unit whose word is at the row.
pub fn unit(
    text: &[u8],
    rows: &[u32],
    count: u32,
    nodes: &mut [u32],
    row: u32,
    node: u32,
) -> Result<At, Refusal>
    requires { AsksOpen rows.now count row node 64 × Spans text.now rows.now count }
    ensures { UnitMet text.now rows.now count row node nodes.old nodes.new result }
{
    let start = parse_nodes::opened(rows, count, row, node)?;
    let u = items(text, rows, count, nodes, start)?;
    Ok(unit_node(nodes, row, u))
}
