// The parse call: a text, its table and lent room for nodes. The rows are passed twice, first without a node written, so that a refused
// parse leaves node memory as it was.
#![tactic(auto)]

ghost use Rattle.std.specs.Prelude.{◌≡◌, ◌+◌, ◌*◌, ◌≤◌, ◌<◌, length, Err};
ghost use Rattle.rules.specs.Text.{start_place};
ghost use Rattle.rules.specs.Calls.{parse_told, parse_leaves, node_room};
ghost use Rattle.rules.specs.Outcomes.{unparsed};
ghost use Rattle.rules.specs.declared.Reason.TheVariants as reason;
ghost use Rattle.parse_nodes.specs.Post.{AsksOpen};
ghost use Rattle.parse_nodes.specs.Names.{Spans};
ghost use Rattle.parse.specs.Program.{AsksTable, AsksEnded, AsksWhole, TopMet, ProgramMet, TopPassed, ProgramPassed};
ghost use Rattle.parse.specs.Program.{reading_of, Accepted, Final};

use parse_nodes::{At, Refusal};
use rows::shape::Row;
use rules::kind::{EOF, EVENT, MAP, UNIT};
use rules::{Cursor, Outer, Parsed, Reason, Syntax, Table, Unparsed, fits, node, node_kind};

// A map, an event or a unit at the row.
fn top(
    text: &[u8],
    rows: &[u32],
    count: u32,
    nodes: &mut [u32],
    row: u32,
    node: u32,
) -> Result<At, Refusal>
    requires { AsksOpen rows.now count row node 64 × Spans text.now rows.now count }
    ensures { TopMet text.now rows.now count row node nodes.old nodes.new result }
{
    match parse_nodes::kind_at(rows, count, row) {
        MAP => parse_maps::map(text, rows, count, nodes, row, node),
        UNIT => parse_units::unit(text, rows, count, nodes, row, node),
        EVENT => parse_events::event(rows, count, nodes, row, node),
        _ => Err(Refusal::new(Syntax::NotTopLevel, row)),
    }
}

// The program of the rows.
fn program(text: &[u8], rows: &[u32], count: u32, nodes: &mut [u32]) -> Result<At, Refusal>
    requires { AsksTable text.now rows.now count }
    ensures { ProgramMet text.now rows.now count nodes.old nodes.new result }
{
    let mut s = At::new(0, 0, 0);
    // Stays: a while loop, which goes on behind what was read; a for has no such step.
    while parse_nodes::kind_at(rows, count, s.row) != EOF {
        let at = s.row;
        let t = top(text, rows, count, nodes, at, s.node).map_err(|e: Refusal| e.instead(
            at,
            fits::TOPS,
        ))?;
        s = t.counted(s.place, s.things + 1);
    }
    Ok(s.ended(nodes, node_kind::PROGRAM, s.row, s.things))
}

// The first pass over a map, an event or a unit at the row, into no memory: the row behind it. A unit is passed by its kinds alone where
// they tell that it is one.
fn top_passed(
    text: &[u8],
    rows: &[u32],
    count: u32,
    none: &mut [u32],
    row: u32,
) -> Result<u32, Refusal>
    requires { AsksEnded text.now rows.now count × ((row < count) × (length none.old ≡ 0)) }
    ensures { TopPassed text.now rows.now count row result }
{
    if parse_nodes::kind_at(rows, count, row) == UNIT {
        if let Some(end) = parse_pass_units::unit(rows, count, row) {
            return Ok(end);
        }
    }
    let t = top(text, rows, count, none, row, 0)?;
    Ok(t.row)
}

// The first pass over the program of the rows, into no memory: the row behind its last.
pub fn program_passed(
    text: &[u8],
    rows: &[u32],
    count: u32,
    none: &mut [u32],
) -> Result<u32, Refusal>
    requires { AsksEnded text.now rows.now count × (length none.old ≡ 0) }
    ensures { ProgramPassed text.now rows.now count result }
{
    let mut at = 0;
    // Stays: a while loop, which goes on behind what was read; a for has no such step.
    while parse_nodes::kind_at(rows, count, at) != EOF {
        let from = at;
        at = top_passed(text, rows, count, none, from).map_err(|e: Refusal| e.instead(
            from,
            fits::TOPS,
        ))?;
    }
    Ok(at + 1)
}

// A refusal of the call itself.
fn outer(why: Outer) -> Parsed
    ensures { result ≡ Err (unparsed (reason.Outer why) start_place 0) }
{
    Err(Unparsed {
        why: Reason::Outer(why),
        at: Cursor::start(),
        found: 0,
    })
}

// The nodes of a program that the first pass has come to the end of, into enough room. It is not refused.
pub fn written(text: &[u8], rows: &[u32], count: u32, nodes: &mut [u32]) -> Parsed
    requires { AsksWhole text.now rows.now count nodes.old × Accepted (reading_of text.now rows.now count) }
    ensures { Final rows.now (reading_of text.now rows.now count) nodes.old
        nodes.new result }
{
    match program(text, rows, count, nodes) {
        Ok(t) => Ok(t.node),
        Err(_) => Ok(0),
    }
}

// The program of a sound table with no refused ending, into enough room.
fn twice(text: &[u8], rows: &[u32], count: u32, nodes: &mut [u32]) -> Parsed
    requires { AsksWhole text.now rows.now count nodes.old }
    ensures { Final rows.now (reading_of text.now rows.now count) nodes.old
        nodes.new result }
{
    match program_passed(text, rows, count, &mut nodes[..0]) {
        Ok(_) => written(text, rows, count, nodes),
        Err(e) => {
            let row = Row::at(rows, e.row as usize);
            Err(Unparsed {
                why: Reason::Syntax(e.why),
                at: row.place(),
                found: refusals::found_told(e.why, row.kind),
            })
        }
    }
}

// The nodes of a program.
pub fn parse(text: &[u8], rows: &[u32], table: Table, nodes: &mut [u32]) -> Parsed
    ensures told { result ≡ parse_told text.now rows.now table (node_room nodes.old) }
    ensures left { nodes.new ≡ parse_leaves text.now rows.now table nodes.old }
{
    rows::judge(text, rows, table)?;
    let ending = table.ending;
    match ending {
        Some(e) => {
            return Err(Unparsed {
                why: Reason::Lexical(e.why),
                at: e.at,
                found: 0,
            });
        }
        None => {}
    }
    let count = table.count as usize;
    if nodes.len() / node::WORDS < count {
        return outer(Outer::NoNodeRoom);
    }
    twice(text, rows, table.count, nodes)
}
