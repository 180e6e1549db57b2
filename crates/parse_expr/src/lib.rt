// Expressions. The functions from `add` to `args` call each other in a circle, the rest of the nesting limit and the rows falling:
// add = shift (('+'|'-') mul)*, shift = mul (('<<'|'>>') mul)* (one loop serves both), mul = unary (('*'|'/'|'%') unary)*,
// unary = '*' unary | prim, prim = (Number | Identifier | '(' add ')') ('.' Identifier ['(' [add (',' add)*] ')'])*.
#![tactic(auto)]

ghost use Rattle.std.specs.Prelude.{◌≡◌, ◌+◌, ◌*◌, ◌≤◌, ◌<◌, ◌||◌, length, eqb};
ghost use Rattle.rules.specs.Kinds.{Identifier, Number};
ghost use Rattle.rules.specs.Parse.{inner, atom, prim, unary, mul, add, args, post};
ghost use Rattle.parse_nodes.specs.Post.{kind_word, state_at, Answers, Onward, Asks, AsksAt, AsksOpen, most_rows};
ghost use Rattle.parse_expr.specs.Written.{CallEnd, FieldEnd};
ghost use Rattle.parse_expr.specs.Lone.{is_lone, Leaf};

use parse_nodes::{At, Refusal};
use parse_signs::{is_mul, joined, joins};
use rules::kind::{COMMA, DOT, IDENTIFIER, LPAREN, NUMBER, RPAREN, STAR};
use rules::row::{HIGH, LOW, WORDS};
use rules::{Syntax, fits, node_kind};

// The end of a call: s stands behind the receiver, at the dot; m is the next node, and next the row behind the call.
fn call_end(nodes: &mut [u32], s: At, m: u32, count: u32, next: u32) -> Result<At, Refusal>
    requires { (s.row ≤ 65536) × ((m ≤ most_rows) × (count ≤ 65536)) }
    ensures { CallEnd s.variable s m count next nodes.old nodes.new result }
{
    if !s.variable {
        return Err(Refusal::new(Syntax::CallOnOther, s.row + 1));
    }
    parse_nodes::close(nodes, m, node_kind::CALL, s.place, s.row + 1, count + 1);
    Ok(At::new(next, m + 1, s.place))
}

// The state behind a field of what s stands behind, at the dot.
fn field_end(nodes: &mut [u32], s: At) -> At
    requires { (s.row ≤ 65535) × (s.node ≤ most_rows) }
    ensures { FieldEnd s nodes.old nodes.new result }
{
    let name = s.row + 1;
    let n = s.node;
    parse_nodes::close(nodes, n, node_kind::FIELD, name, name, 1);
    At::new(name + 1, n + 1, name)
}

// Whether a row's kind is that of a variable or a number.
fn is_leaf(k: u32) -> bool
    ensures { result ≡ eqb k Identifier || eqb k Number }
{
    matches!(k, IDENTIFIER | NUMBER)
}

// Whether a variable or a number stands at a row, and neither a dot nor an operator of `mul` behind it.
fn is_lone(rows: &[u32], count: u32, row: u32) -> bool
    requires { (count * 8 ≤ length rows.now) × (row ≤ most_rows) }
    ensures { result ≡ is_lone (kind_word rows.now count row) (kind_word rows.now count (row + 1)) }
{
    let k = parse_nodes::kind_at(rows, count, row);
    let next = parse_nodes::kind_at(rows, count, row + 1);
    is_leaf(k) & !((next == DOT) | is_mul(next))
}

// The state behind the number at a row, or behind a variable if no number stands there.
fn leaf(rows: &[u32], count: u32, nodes: &mut [u32], row: u32, node: u32) -> At
    requires { (count * 8 ≤ length rows.now) × ((row ≤ most_rows) × (node ≤ most_rows)) }
    ensures { Leaf rows.now count row node nodes.old nodes.new result }
{
    if parse_nodes::kind_at(rows, count, row) != NUMBER {
        return parse_nodes::variable(nodes, row, node);
    }
    let at = (row as usize) * WORDS;
    parse_nodes::number(nodes, row, node, rows[at + LOW], rows[at + HIGH])
}

// An expression: operands of `mul` behind shifts, and from the first sign on behind signs alone. One call reads them all, so that one
// answer has room in the frame.
#[cycle(add_args_atom_mul_post_prim_unary)]
pub fn add(
    rows: &[u32],
    count: u32,
    nodes: &mut [u32],
    row: u32,
    node: u32,
    left: usize,
) -> Result<At, Refusal>
    requires { Asks rows.now count row node left }
    ensures { Answers (λ ts. add ts (inner ts left) row) rows.now count row node nodes.old
        nodes.new result }
{
    let mut s = At::new(row, node, row);
    let mut operator = None;
    let mut at = row;
    loop {
        let t = mul(rows, count, nodes, at, s.node, left)?;
        s = joined(nodes, s, t, operator);
        let k = parse_nodes::kind_at(rows, count, s.row);
        if !joins(k, s.summed) {
            return Ok(s);
        }
        operator = Some(k);
        at = s.row + 1;
    }
}

// An operand, and further ones behind `*`, `/` and `%`; a lone variable or number is written at once.
// Stays: the loop is that of `add` in outline alone. Operand, test and contract differ, and one function of both would choose each by a flag.
#[cycle(add_args_atom_mul_post_prim_unary)]
fn mul(
    rows: &[u32],
    count: u32,
    nodes: &mut [u32],
    row: u32,
    node: u32,
    left: usize,
) -> Result<At, Refusal>
    requires { Asks rows.now count row node left }
    ensures { Answers (λ ts. mul ts (inner ts left) row) rows.now count row node nodes.old
        nodes.new result }
{
    if is_lone(rows, count, row) {
        return Ok(leaf(rows, count, nodes, row, node));
    }
    let mut s = At::new(row, node, row);
    let mut operator = None;
    let mut at = row;
    loop {
        let t = unary(rows, count, nodes, at, s.node, left)?;
        s = joined(nodes, s, t, operator);
        let k = parse_nodes::kind_at(rows, count, s.row);
        if !is_mul(k) {
            return Ok(s);
        }
        operator = Some(k);
        at = s.row + 1;
    }
}

// An operand behind any number of stars.
#[cycle(add_args_atom_mul_post_prim_unary)]
fn unary(
    rows: &[u32],
    count: u32,
    nodes: &mut [u32],
    row: u32,
    node: u32,
    left: usize,
) -> Result<At, Refusal>
    requires { Asks rows.now count row node left }
    ensures { Answers (λ ts. unary ts (inner ts left) row) rows.now count row node nodes.old
        nodes.new result }
{
    if parse_nodes::kind_at(rows, count, row) != STAR {
        return prim(rows, count, nodes, row, node, left);
    }
    if left == 0 {
        return Err(Refusal::new(Syntax::TooDeep, row));
    }
    let t = unary(rows, count, nodes, row + 1, node, left - 1)?;
    Ok(t.shut(nodes, node_kind::DEREFERENCE, t.place, 1))
}

// A number, a variable or a group.
#[cycle(add_args_atom_mul_post_prim_unary)]
fn atom(
    rows: &[u32],
    count: u32,
    nodes: &mut [u32],
    row: u32,
    node: u32,
    left: usize,
) -> Result<At, Refusal>
    requires { Asks rows.now count row node left }
    ensures { Answers (λ ts. atom ts (inner ts left) row) rows.now count row node nodes.old
        nodes.new result }
{
    let k = parse_nodes::kind_at(rows, count, row);
    if is_leaf(k) {
        return Ok(leaf(rows, count, nodes, row, node));
    }
    if k != LPAREN {
        return Err(Refusal::new(parse_nodes::wrong(fits::OPERANDS), row));
    }
    if left == 0 {
        return Err(Refusal::new(Syntax::TooDeep, row));
    }
    let t = add(rows, count, nodes, row + 1, node, left - 1)?;
    parse_nodes::want_end(rows, count, t, RPAREN, fits::RPAREN)?;
    Ok(At {
        variable: t.variable,
        ..At::new(t.row + 1, t.node, t.place)
    })
}

// An atom with its fields and calls.
#[cycle(add_args_atom_mul_post_prim_unary)]
fn prim(
    rows: &[u32],
    count: u32,
    nodes: &mut [u32],
    row: u32,
    node: u32,
    left: usize,
) -> Result<At, Refusal>
    requires { Asks rows.now count row node left }
    ensures { Answers (λ ts. prim ts (inner ts left) row) rows.now count row node nodes.old
        nodes.new result }
{
    let mut s = atom(rows, count, nodes, row, node, left)?;
    while parse_nodes::kind_at(rows, count, s.row) == DOT {
        s = post(rows, count, nodes, s, left)?;
    }
    Ok(s)
}

// A field or a call behind what s stands behind, whose dot is at s's row.
#[cycle(add_args_atom_mul_post_prim_unary)]
fn post(rows: &[u32], count: u32, nodes: &mut [u32], s: At, left: usize) -> Result<At, Refusal>
    requires { AsksAt rows.now count s left }
    ensures { Onward (λ ts t. post ts (inner ts left) t s.row) rows.now count s nodes.old
        nodes.new result }
{
    let name = s.row + 1;
    parse_nodes::want(rows, count, name, IDENTIFIER)?;
    let open = name + 1;
    if parse_nodes::kind_at(rows, count, open) != LPAREN {
        return Ok(field_end(nodes, s));
    }
    if parse_nodes::kind_at(rows, count, open + 1) == RPAREN {
        return call_end(nodes, s, s.node, 0, open + 1 + 1);
    }
    let a = args(rows, count, nodes, open, s.node, left)?;
    parse_nodes::want_end(rows, count, a, RPAREN, fits::ARGUMENT_ENDS)?;
    call_end(nodes, s, a.node, a.things, a.row + 1)
}

// Arguments behind the parenthesis at `row`.
#[cycle(add_args_atom_mul_post_prim_unary)]
fn args(
    rows: &[u32],
    count: u32,
    nodes: &mut [u32],
    row: u32,
    node: u32,
    left: usize,
) -> Result<At, Refusal>
    requires { AsksOpen rows.now count row node left }
    ensures { Answers (λ ts. args ts (inner ts left) row) rows.now count (row + 1) node nodes.old
        nodes.new result }
{
    if left == 0 {
        return Err(Refusal::new(Syntax::TooDeep, row));
    }
    let from = row + 1;
    let told = |e: Refusal| e.instead(from, fits::FIRST_ARGUMENTS);
    let first = add(rows, count, nodes, from, node, left - 1).map_err(told)?;
    let mut s = first.counted(first.place, 1);
    while parse_nodes::kind_at(rows, count, s.row) == COMMA {
        let t = add(rows, count, nodes, s.row + 1, s.node, left - 1)?;
        s = t.counted(s.place, s.things + 1);
    }
    Ok(s)
}
