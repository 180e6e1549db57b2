// The first pass over a unit: where it ends, told by the kinds of its rows alone, or None where they do not tell. `statement`, `branch`
// and `body` call each other in a circle, the rest of the nesting limit falling with each body.
//
// Stays: `count` beside `rows`, which the contracts alone read; a ghost clause in its place has no generated proof in a circle.
#![tactic(auto)]

ghost use Rattle.std.specs.Prelude.{◌≡◌, true};
ghost use Rattle.rules.specs.Kinds.{KeywordUnit, KeywordIf, KeywordReturn};
ghost use Rattle.rules.specs.Grammar.{Stmt, Item, Decl};
ghost use Rattle.rules.specs.Parse.{is_declaring, is_text};
ghost use Rattle.parse_pass_expr.specs.Seen.{kind_in, Looks, Sees};
ghost use Rattle.parse_pass_units.specs.Closed.{SeesClosed, SeesHead, SeesBody};

use parse_pass_expr::{behind, expression, kind};
use rules::kind::{
    ELSE, EQUALS, GUARD, HEAP, IDENTIFIER, IF, IMM, LBRACE, LICENSE, LPAREN, PLUS_EQUALS, RBRACE,
    REG, RETURN, RPAREN, SECTION, SEMICOLON, STRING,
};
use rules::limit;

// An expression and the `;` behind it: the row of that.
fn closed(rows: &[u32], count: u32, row: u32, left: usize) -> Option<u32>
    requires { Looks rows.now count row left }
    ensures { SeesClosed left rows.now count row result }
{
    let end = expression(rows, count, row, left)?;
    if kind(rows, end) != SEMICOLON {
        return None;
    }
    Some(end)
}

// `reg`, `imm` or `heap` at the row: name `=` expression `;`.
fn declaration(rows: &[u32], count: u32, row: u32, left: usize) -> Option<u32>
    requires { Looks rows.now count row left × (is_declaring (kind_in rows.now row) ≡ true) }
    ensures { Sees Stmt left rows.now count row result }
{
    let sign = behind(rows, row + 1, IDENTIFIER)?;
    let value = behind(rows, sign, EQUALS)?;
    Some(closed(rows, count, value, left)? + 1)
}

// `return` at the row: expression `;`.
fn giving(rows: &[u32], count: u32, row: u32, left: usize) -> Option<u32>
    requires { Looks rows.now count row left × (kind_in rows.now row ≡ KeywordReturn) }
    ensures { Sees Stmt left rows.now count row result }
{
    Some(closed(rows, count, row + 1, left)? + 1)
}

// An expression, or one and `=` or `+=` and another; then `;`.
fn effect(rows: &[u32], count: u32, row: u32, left: usize) -> Option<u32>
    requires { Looks rows.now count row left }
    ensures { Sees Stmt left rows.now count row result }
{
    let end = expression(rows, count, row, left)?;
    match kind(rows, end) {
        SEMICOLON => Some(end + 1),
        EQUALS | PLUS_EQUALS => Some(closed(rows, count, end + 1, left)? + 1),
        _ => None,
    }
}

// `guard ( name )` behind the `if` at the row: the row behind it.
fn head(rows: &[u32], count: u32, row: u32) -> Option<u32>
    requires { Looks rows.now count row 0 × (kind_in rows.now row ≡ KeywordIf) }
    ensures { SeesHead rows.now count row result }
{
    let open = behind(rows, row + 1, GUARD)?;
    let name = behind(rows, open, LPAREN)?;
    let close = behind(rows, name, IDENTIFIER)?;
    behind(rows, close, RPAREN)
}

// `if` at the row, with its bodies.
#[cycle(statement)]
fn branch(rows: &[u32], count: u32, row: u32, left: usize) -> Option<u32>
    requires { Looks rows.now count row left × (kind_in rows.now row ≡ KeywordIf) }
    ensures { Sees Stmt left rows.now count row result }
{
    let open = head(rows, count, row)?;
    let end = body(rows, count, open, left)?;
    if kind(rows, end) == ELSE {
        return body(rows, count, end + 1, left);
    }
    Some(end)
}

// The braces at the row, with statements in them.
#[cycle(statement)]
fn body(rows: &[u32], count: u32, row: u32, left: usize) -> Option<u32>
    requires { Looks rows.now count row left }
    ensures { SeesBody left rows.now count row result }
{
    let mut at = behind(rows, row, LBRACE)?;
    let under = left.checked_sub(1)?;
    // Stays: a while loop, which goes on behind what was read; a for has no such step.
    while kind(rows, at) != RBRACE {
        at = statement(rows, count, at, under)?;
    }
    Some(at + 1)
}

// A statement.
#[cycle(statement)]
fn statement(rows: &[u32], count: u32, row: u32, left: usize) -> Option<u32>
    requires { Looks rows.now count row left }
    ensures { Sees Stmt left rows.now count row result }
{
    match kind(rows, row) {
        REG | IMM | HEAP => declaration(rows, count, row, left),
        RETURN => giving(rows, count, row, left),
        IF => branch(rows, count, row, left),
        _ => effect(rows, count, row, left),
    }
}

// `section` or `license` at the row: string `;`.
fn text(rows: &[u32], count: u32, row: u32) -> Option<u32>
    requires { Looks rows.now count row 0 × (is_text (kind_in rows.now row) ≡ true) }
    ensures { Sees Item 64 rows.now count row result }
{
    let end = behind(rows, row + 1, STRING)?;
    behind(rows, end, SEMICOLON)
}

// A thing that a unit holds.
fn item(rows: &[u32], count: u32, row: u32) -> Option<u32>
    requires { Looks rows.now count row 0 }
    ensures { Sees Item 64 rows.now count row result }
{
    match kind(rows, row) {
        SECTION | LICENSE => text(rows, count, row),
        _ => statement(rows, count, row, limit::MOST_OPEN),
    }
}

// The unit whose word is at the row.
pub fn unit(rows: &[u32], count: u32, row: u32) -> Option<u32>
    requires { Looks rows.now count row 0 × (kind_in rows.now row ≡ KeywordUnit) }
    ensures { Sees Decl 64 rows.now count row result }
{
    let brace = behind(rows, row + 1, IDENTIFIER)?;
    let mut at = behind(rows, brace, LBRACE)?;
    // Stays: a while loop, which goes on behind what was read; a for has no such step.
    while kind(rows, at) != RBRACE {
        at = item(rows, count, at)?;
    }
    Some(at + 1)
}
