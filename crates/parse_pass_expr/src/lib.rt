// The first pass over an expression: where it ends, told by the kinds of its rows alone. Nothing is built, and a row is all that is
// answered. None says "not told here", and the parser itself then says what is wrong, if anything is.
// The functions from `expression` to `arguments` call each other in a circle, the rest of the nesting limit falling.
//
// No row is asked for past the last: that is Eof, and behind each other kind a row stands.
//
// Stays: `count` beside `rows`, which the contracts alone read; a ghost clause in its place has no generated proof in a circle.
#![tactic(auto)]

ghost use Rattle.std.specs.Prelude.{◌≡◌, ◌≢◌, ◌+◌, ◌*◌, ◌≤◌, length, get_or, MatchOption};
ghost use Rattle.rules.specs.Kinds.{Identifier};
ghost use Rattle.rules.specs.Grammar.{Add, Mul, Unary, Basic, Args};
ghost use Rattle.parse_pass_expr.specs.Seen.{kind_in, Looks, Sees, SeesOn, is_alone};

use parse_signs::{is_add, is_mul, is_shift};
use rules::kind::{COMMA, DOT, IDENTIFIER, LPAREN, NUMBER, RPAREN, STAR};
use rules::row;

// The kind of row i.
pub fn kind(rows: &[u32], i: u32) -> u32
    requires { i * 8 + 8 ≤ length rows.now }
    ensures { result ≡ get_or rows.now (i * 8) 0 }
{
    rows[(i as usize) * row::WORDS]
}

// The row behind row i, if row i is of the kind.
pub fn behind(rows: &[u32], i: u32, wanted: u32) -> Option<u32>
    requires lent { i * 8 + 8 ≤ length rows.now }
    requires short { i ≤ 65537 }
    ensures { MatchOption result (kind_in rows.now i ≢ wanted) (λ next. (kind_in rows.now i ≡ wanted) × (next ≡ i + 1)) }
{
    if kind(rows, i) == wanted {
        Some(i + 1)
    } else {
        None
    }
}

// Behind what ends at the row: its fields, each a dot and a name.
fn fields(rows: &[u32], count: u32, row: u32) -> Option<u32>
    requires { Looks rows.now count row 0 }
    ensures { SeesOn rows.now count row result }
{
    let mut at = row;
    // Stays: a while loop, which goes on as far as the rows tell; a for has no such step.
    while kind(rows, at) == DOT {
        at = behind(rows, at + 1, IDENTIFIER)?;
    }
    Some(at)
}

// The variable at the row, with what is read of it: a call of a method, fields.
#[cycle(expression)]
fn variable(rows: &[u32], count: u32, row: u32, left: usize) -> Option<u32>
    requires { Looks rows.now count row left × (get_or rows.now (row * 8) 0 ≡ Identifier) }
    ensures { Sees Basic left rows.now count row result }
{
    let dot = row + 1;
    if kind(rows, dot) != DOT {
        return Some(dot);
    }
    let open = behind(rows, dot + 1, IDENTIFIER)?;
    if kind(rows, open) != LPAREN {
        return fields(rows, count, open);
    }
    if kind(rows, open + 1) == RPAREN {
        return fields(rows, count, open + 2);
    }
    let end = arguments(rows, count, open + 1, left.checked_sub(1)?)?;
    fields(rows, count, behind(rows, end, RPAREN)?)
}

// Arguments, the first of them at the row.
#[cycle(expression)]
fn arguments(rows: &[u32], count: u32, row: u32, left: usize) -> Option<u32>
    requires { Looks rows.now count row left }
    ensures { Sees Args left rows.now count row result }
{
    let mut at = row;
    // Stays: a loop, which goes on behind what was read; a for has no such step.
    loop {
        let end = expression(rows, count, at, left)?;
        if kind(rows, end) != COMMA {
            return Some(end);
        }
        at = end + 1;
    }
}

// The group at the row, and its fields.
#[cycle(expression)]
fn group(rows: &[u32], count: u32, row: u32, left: usize) -> Option<u32>
    requires { Looks rows.now count row left }
    ensures { Sees Basic left rows.now count row result }
{
    let inner = behind(rows, row, LPAREN)?;
    let end = expression(rows, count, inner, left.checked_sub(1)?)?;
    fields(rows, count, behind(rows, end, RPAREN)?)
}

// An operand behind any number of stars.
#[cycle(expression)]
fn operand(rows: &[u32], count: u32, row: u32, left: usize) -> Option<u32>
    requires { Looks rows.now count row left }
    ensures { Sees Unary left rows.now count row result }
{
    let mut at = row;
    let mut rest = left;
    // Stays: a while loop, which goes on as far as the rows tell; a for has no such step. A call of itself for each star is no jump,
    // since an Option is answered: a parse of operands behind sixty stars took 1.3 times as long.
    while kind(rows, at) == STAR {
        rest = rest.checked_sub(1)?;
        at += 1;
    }
    match kind(rows, at) {
        IDENTIFIER => variable(rows, count, at, rest),
        NUMBER => fields(rows, count, at + 1),
        _ => group(rows, count, at, rest),
    }
}

// Whether a variable or a number stands at the row, and no dot behind it.
#[tactic(auto, unfolding(crate::specs::Seen::is_alone))]
fn is_alone(rows: &[u32], count: u32, row: u32) -> bool
    requires { Looks rows.now count row 0 }
    ensures { result ≡ is_alone rows.now row }
{
    matches!(kind(rows, row), IDENTIFIER | NUMBER) && kind(rows, row + 1) != DOT
}

// An operand; one that is alone is passed at once.
#[cycle(expression)]
fn factor(rows: &[u32], count: u32, row: u32, left: usize) -> Option<u32>
    requires { Looks rows.now count row left }
    ensures { Sees Unary left rows.now count row result }
{
    if is_alone(rows, count, row) {
        return Some(row + 1);
    }
    operand(rows, count, row, left)
}

// Operands behind `*`, `/` and `%`.
#[cycle(expression)]
fn product(rows: &[u32], count: u32, row: u32, left: usize) -> Option<u32>
    requires { Looks rows.now count row left }
    ensures { Sees Mul left rows.now count row result }
{
    let mut at = row;
    // Stays: a loop, which goes on behind what was read; a for has no such step.
    loop {
        let end = factor(rows, count, at, left)?;
        if !is_mul(kind(rows, end)) {
            return Some(end);
        }
        at = end + 1;
    }
}

// An expression: products behind shifts, and from the first sign on behind signs alone.
#[cycle(expression)]
pub fn expression(rows: &[u32], count: u32, row: u32, left: usize) -> Option<u32>
    requires { Looks rows.now count row left }
    ensures { Sees Add left rows.now count row result }
{
    let mut at = row;
    let mut summed = false;
    // Stays: a loop, which goes on behind what was read; a for has no such step.
    loop {
        let end = product(rows, count, at, left)?;
        let k = kind(rows, end);
        let sign = is_add(k);
        let shift = is_shift(k);
        if !(sign | shift) {
            return Some(end);
        }
        if summed & shift {
            return None;
        }
        summed = summed | sign;
        at = end + 1;
    }
}
