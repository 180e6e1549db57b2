// Statements. `stmt`, `branch`, `otherwise` and `body` call each other in a circle, the rest of the nesting limit falling with each body.
#![tactic(auto)]

ghost use Rattle.std.specs.Prelude.{◌≡◌, ◌+◌, ◌*◌, ◌≤◌, ◌<◌, length};
ghost use Rattle.rules.specs.Nodes.{decl_node, assign_node};
ghost use Rattle.rules.specs.Parse.{is_declaring, is_assign, declaring, returning, branching, expression, stmt, body};
ghost use Rattle.parse_nodes.specs.Post.{Answers, Onward, Asks, AsksAt, AsksOpen, most_rows};
ghost use Rattle.parse_stmt.specs.Bodies.{by_lead, assigned_to, NamedEnd, body_node, HeadSays, BodyAnswers, AsksElse, Elsewise, HangingIf};

use parse_nodes::{At, Refusal};
use parse_things::things;
use rules::kind::{
    ELSE, EQUALS, GUARD, HEAP, IDENTIFIER, IF, IMM, LBRACE, LPAREN, PLUS_EQUALS, RBRACE, REG,
    RETURN, RPAREN, SEMICOLON,
};
use rules::{Syntax, fits, node_kind};

// Whether a row's kind is reg, imm or heap.
fn is_declaring(k: u32) -> bool
    ensures { result ≡ is_declaring k }
{
    matches!(k, REG | IMM | HEAP)
}

// Whether a row's kind is `=` or `+=`.
fn is_assign(k: u32) -> bool
    ensures { result ≡ is_assign k }
{
    matches!(k, EQUALS | PLUS_EQUALS)
}

// The node kind of a declaration's first row.
#[tactic(auto, unfolding(rules::specs::Nodes::decl_node))]
fn decl_node(k: u32) -> u32
    ensures { result ≡ decl_node k }
{
    match k {
        REG => node_kind::REG,
        IMM => node_kind::IMM,
        _ => node_kind::HEAP,
    }
}

// The node kind of an assignment's sign.
#[tactic(auto, unfolding(rules::specs::Nodes::assign_node))]
fn assign_node(k: u32) -> u32
    ensures { result ≡ assign_node k }
{
    if k == EQUALS {
        node_kind::ASSIGN
    } else {
        node_kind::ADD_ASSIGN
    }
}

// The state behind a named node with one child, over what was read up to t, and behind the row that ends it.
fn named_end(nodes: &mut [u32], t: At, kind: u32, name: u32) -> At
    requires { (t.node ≤ most_rows) × (t.row ≤ most_rows) }
    ensures { NamedEnd t kind name nodes.old nodes.new result }
{
    let n = t.node;
    parse_nodes::close(nodes, n, kind, name, name, 1);
    At::new(t.row + 1, n + 1, name)
}

// `reg`, `imm` or `heap` at the row: name `=` expression `;`.
fn declare(
    rows: &[u32],
    count: u32,
    nodes: &mut [u32],
    row: u32,
    node: u32,
    left: usize,
) -> Result<At, Refusal>
    requires { AsksOpen rows.now count row node left }
    ensures { Answers (by_lead declaring left row) rows.now count row node nodes.old
        nodes.new result }
{
    let name = row + 1;
    parse_nodes::want(rows, count, name, IDENTIFIER)?;
    let sign = name + 1;
    parse_nodes::want(rows, count, sign, EQUALS)?;
    let t = parse_expr::add(rows, count, nodes, sign + 1, node, left)?;
    parse_nodes::want_end(rows, count, t, SEMICOLON, fits::SEMICOLON)?;
    let kind = decl_node(parse_nodes::kind_at(rows, count, row));
    Ok(named_end(nodes, t, kind, name))
}

// `return` at the row: expression `;`.
fn give(
    rows: &[u32],
    count: u32,
    nodes: &mut [u32],
    row: u32,
    node: u32,
    left: usize,
) -> Result<At, Refusal>
    requires { AsksOpen rows.now count row node left }
    ensures { Answers (by_lead returning left row) rows.now count row node nodes.old
        nodes.new result }
{
    let place = row + 1;
    let t = parse_expr::add(rows, count, nodes, place, node, left)?;
    parse_nodes::want_end(rows, count, t, SEMICOLON, fits::SEMICOLON)?;
    Ok(t.ended(nodes, node_kind::RETURN, place, 1))
}

// The value and `;` behind the target t, whose sign is at t's row.
fn assigned(rows: &[u32], count: u32, nodes: &mut [u32], t: At, left: usize) -> Result<At, Refusal>
    requires { AsksAt rows.now count t left }
    ensures { Onward (assigned_to left t.row) rows.now count t nodes.old nodes.new result }
{
    let kind = assign_node(parse_nodes::kind_at(rows, count, t.row));
    let u = parse_expr::add(rows, count, nodes, t.row + 1, t.node, left)?;
    parse_nodes::want_end(rows, count, u, SEMICOLON, fits::SEMICOLON)?;
    Ok(u.ended(nodes, kind, t.place, 2))
}

// An expression, or one and `=` or `+=` and another; then `;`.
fn effect(
    rows: &[u32],
    count: u32,
    nodes: &mut [u32],
    row: u32,
    node: u32,
    left: usize,
) -> Result<At, Refusal>
    requires { Asks rows.now count row node left }
    ensures { Answers (by_lead expression left row) rows.now count row node nodes.old
        nodes.new result }
{
    let t = parse_expr::add(rows, count, nodes, row, node, left)?;
    if is_assign(parse_nodes::kind_at(rows, count, t.row)) {
        return assigned(rows, count, nodes, t, left);
    }
    parse_nodes::want_end(rows, count, t, SEMICOLON, fits::EFFECT_ENDS)?;
    Ok(t.ended(nodes, node_kind::EXPRESSION, t.place, 1))
}

// The row of the brace in `guard ( name ) {` behind the `if` at the row.
fn head(rows: &[u32], count: u32, row: u32) -> Result<u32, Refusal>
    requires { (count * 8 ≤ length rows.now) × ((row < count) × (count ≤ most_rows)) }
    ensures { HeadSays rows.now count row result }
{
    let guard = row + 1;
    parse_nodes::want(rows, count, guard, GUARD)?;
    let open = guard + 1;
    parse_nodes::want(rows, count, open, LPAREN)?;
    let name = open + 1;
    parse_nodes::want(rows, count, name, IDENTIFIER)?;
    let close = name + 1;
    parse_nodes::want(rows, count, close, RPAREN)?;
    let brace = close + 1;
    parse_nodes::want(rows, count, brace, LBRACE)?;
    Ok(brace)
}

// A statement.
#[cycle(body_branch_otherwise_stmt)]
pub fn stmt(
    rows: &[u32],
    count: u32,
    nodes: &mut [u32],
    row: u32,
    node: u32,
    left: usize,
) -> Result<At, Refusal>
    requires { Asks rows.now count row node left }
    ensures { Answers (λ ts. stmt ts left (body ts left) row) rows.now count row node nodes.old
        nodes.new result }
{
    let k = parse_nodes::kind_at(rows, count, row);
    if is_declaring(k) {
        return declare(rows, count, nodes, row, node, left);
    }
    match k {
        RETURN => give(rows, count, nodes, row, node, left),
        IF => branch(rows, count, nodes, row, node, left),
        _ => effect(rows, count, nodes, row, node, left),
    }
}

// `if` at the row.
#[cycle(body_branch_otherwise_stmt)]
fn branch(
    rows: &[u32],
    count: u32,
    nodes: &mut [u32],
    row: u32,
    node: u32,
    left: usize,
) -> Result<At, Refusal>
    requires { AsksOpen rows.now count row node left }
    ensures { Answers (by_lead branching left row) rows.now count row node nodes.old
        nodes.new result }
{
    let brace = head(rows, count, row)?;
    let name = row + 3;
    parse_nodes::close(nodes, node, node_kind::VARIABLE, name, name, 0);
    let t = body(rows, count, nodes, brace, node + 1, left)?;
    otherwise(rows, count, nodes, t, row + 1, left)
}

// The state behind an `if` without `else`, whose then body ends at t and whose guard is at `guard`.
fn hanging_if(nodes: &mut [u32], t: At, guard: u32) -> At
    requires { t.node ≤ most_rows }
    ensures { HangingIf t guard nodes.old nodes.new result }
{
    At {
        hanging: true,
        ..t.shut(nodes, node_kind::IF, guard, 2)
    }
}

// Behind a then body at t: an else body, if there is one, and the node of the `if` whose guard is at `guard`.
#[cycle(body_branch_otherwise_stmt)]
fn otherwise(
    rows: &[u32],
    count: u32,
    nodes: &mut [u32],
    t: At,
    guard: u32,
    left: usize,
) -> Result<At, Refusal>
    requires { AsksElse rows.now count t left }
    ensures { Elsewise left rows.now count t guard nodes.old nodes.new result }
{
    if parse_nodes::kind_at(rows, count, t.row) != ELSE {
        return Ok(hanging_if(nodes, t, guard));
    }
    let brace = t.row + 1;
    parse_nodes::want(rows, count, brace, LBRACE)?;
    let u = body(rows, count, nodes, brace, t.node, left)?;
    Ok(u.shut(nodes, node_kind::IF, guard, 3))
}

// The node kind of a body, by the kind of the row in front of its brace: `else`, or the `)` of a guard.
#[tactic(auto, unfolding(crate::specs::Bodies::body_node))]
fn body_node(k: u32) -> u32
    ensures { result ≡ body_node k }
{
    if k == ELSE {
        node_kind::ELSE
    } else {
        node_kind::THEN
    }
}

// The body whose brace is at the row: its statements, and its node.
#[cycle(body_branch_otherwise_stmt)]
fn body(
    rows: &[u32],
    count: u32,
    nodes: &mut [u32],
    row: u32,
    node: u32,
    left: usize,
) -> Result<At, Refusal>
    requires { (0 < row) × AsksOpen rows.now count row node left }
    ensures { BodyAnswers left rows.now count row node nodes.old nodes.new result }
{
    if left == 0 {
        return Err(Refusal::new(Syntax::TooDeep, row));
    }
    let mut s = At::new(row + 1, node, row + 1);
    while parse_nodes::kind_at(rows, count, s.row) != RBRACE {
        let told = |e: Refusal| e.instead(s.row, things(fits::BODY_THINGS, s.hanging));
        let t = stmt(rows, count, nodes, s.row, s.node, left - 1).map_err(told)?;
        s = t.counted(s.place, s.things + 1);
    }
    let kind = body_node(parse_nodes::kind_at(rows, count, row - 1));
    Ok(s.ended(nodes, kind, row, s.things))
}
