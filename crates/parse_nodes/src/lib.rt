// Where the parser stands, what it answers, and the nodes it writes. Nothing here reads the grammar.
#![tactic(auto)]

ghost use Rattle.std.specs.Prelude.{◌≡◌, ◌≢◌, OnOk, IfErr, true, ◌+◌, ◌-◌, ◌*◌, ◌^◌, ◌≤◌, ◌<◌, length, set};
ghost use Rattle.std.proofs.lemmas.List.Edits.{sets};
ghost use Rattle.rules.specs.Kinds.{last_unmade};
ghost use Rattle.rules.specs.Tree.{type_number};
ghost use Rattle.rules.specs.Nodes.{NodeVariable, NodeNumber, node, fact_node, node_words, missing};
ghost use Rattle.rules.specs.Fits.{only, wrong, retold};
ghost use Rattle.parse_nodes.specs.Post.{kind_word, state_at, variable_at, counted_at, refusal, AsksOpen, most_rows};
ghost use Rattle.parse_nodes.specs.Fitting.{retold_at, dotted_words, onward_words, Header};

use rules::kind::{DOT, EOF, IDENTIFIER, LAST_UNMADE, LBRACE};
use rules::node::MISSING;
use rules::{Syntax, fits, limit, node, node_kind, row};

// Where the parser stands: the next row, the next node, the place of what was read and how many things it has if it is a list. Of what was
// read, or of its last thing: whether it is a variable, a sum, an `if` without `else`.
#[derive(Clone, Copy)]
pub struct At {
    pub row: u32,
    pub node: u32,
    pub place: u32,
    pub things: u32,
    pub variable: bool,
    pub summed: bool,
    pub hanging: bool,
}

impl At {
    // The state at a row and a node, behind what is no variable, no sum, no list and no `if` without `else`.
    pub fn new(row: u32, node: u32, place: u32) -> At
        ensures { result ≡ state_at row node place }
    {
        At {
            row,
            node,
            place,
            things: 0,
            variable: false,
            summed: false,
            hanging: false,
        }
    }

    // The same state as one behind a list of so many things, with another place.
    pub fn counted(self, place: u32, things: u32) -> At
        ensures { result ≡ counted_at self place things }
    {
        At {
            place,
            things,
            variable: false,
            ..self
        }
    }

    // The state behind a nameless node that is written here, over what was read.
    pub fn shut(self, nodes: &mut [u32], kind: u32, place: u32, children: u32) -> At
        requires { self.node ≤ most_rows }
        ensures { (result ≡ state_at self.row (self.node + 1) place)
            × (nodes.new
            ≡ sets nodes.old (8 * self.node) (node_words (node kind place missing children))) }
    {
        close(nodes, self.node, kind, place, MISSING, children);
        At::new(self.row, self.node + 1, place)
    }

    // The state behind a nameless node over what was read, and behind the row that ends it.
    pub fn ended(self, nodes: &mut [u32], kind: u32, place: u32, children: u32) -> At
        requires { (self.node ≤ most_rows) × (self.row ≤ most_rows) }
        ensures { (result ≡ state_at (self.row + 1) (self.node + 1) place)
            × (nodes.new
            ≡ sets nodes.old (8 * self.node) (node_words (node kind place missing children))) }
    {
        close(nodes, self.node, kind, place, MISSING, children);
        At::new(self.row + 1, self.node + 1, place)
    }
}

// Why nothing was read, and the row where. It has four words where a state has five, so that an answer, one or the other, has 24 bytes.
#[derive(Clone, Copy)]
pub struct Refusal {
    pub why: Syntax,
    pub row: u32,
}

const _: () = prove!(size_of::<Result<At, Refusal>>() == 24);

impl Refusal {
    // The refusal at a row.
    pub fn new(why: Syntax, row: u32) -> Refusal
        ensures { result ≡ refusal why row }
    {
        Refusal { why, row }
    }

    // The same, with the set that is told where the first row itself is refused with 21.
    pub fn instead(self, first: u32, set: u64) -> Refusal
        ensures { result ≡ refusal (retold_at set first self.why self.row) self.row }
    {
        if self.row != first {
            return self;
        }
        Refusal {
            why: retold(set, self.why),
            ..self
        }
    }
}

// The words of a node.
#[derive(Clone, Copy, Default)]
pub struct Words {
    pub kind: u32,
    pub place: u32,
    pub name: u32,
    pub children: u32,
    pub fact0: u32,
    pub fact1: u32,
    pub fact2: u32,
    pub fact3: u32,
}

// The kind of row i of a table of so many rows, and Eof past the last.
// Stays: a kind is a number, since rows are words that C lends; and Eof is no None, since kind_word, which the contracts cite, says so.
#[tactic(auto, unfolding(crate::specs::Post::kind_word))]
pub fn kind_at(rows: &[u32], count: u32, i: u32) -> u32
    requires { count * 8 ≤ length rows.now }
    ensures { result ≡ kind_word rows.now count i }
{
    if i < count {
        rows[(i as usize) * row::WORDS]
    } else {
        EOF
    }
}

// The number of a type, 1 to 4, by its kind.
pub fn type_number(kind: u32) -> u32
    requires { last_unmade ≤ kind }
    ensures { result ≡ type_number kind }
{
    kind - LAST_UNMADE
}

// A word, if there is room.
fn put(nodes: &mut [u32], at: usize, v: u32)
    ensures { nodes.new ≡ set nodes.old at v }
{
    if at < nodes.len() {
        nodes[at] = v;
    }
}

// A node's words from an index on, one by one, as far as there is room.
fn store_part(nodes: &mut [u32], at: usize, w: Words)
    requires { at ≤ 524296 }
    ensures { nodes.new
        ≡ sets nodes.old at
        (node_words
        (fact_node w.kind w.place w.name w.children w.fact0 w.fact1 w.fact2
        w.fact3)) }
{
    put(nodes, at, w.kind);
    put(nodes, at + node::PLACE, w.place);
    put(nodes, at + node::NAME, w.name);
    put(nodes, at + node::CHILDREN, w.children);
    put(nodes, at + node::FACT0, w.fact0);
    put(nodes, at + node::FACT1, w.fact1);
    put(nodes, at + node::FACT2, w.fact2);
    put(nodes, at + node::FACT3, w.fact3);
}

// A node's words from an index on, where there is room for all.
// Stays: a twin of store_part. With tested words alone a parse of 9,000 rows of statements takes 104 us where it takes 82.
fn store_whole(nodes: &mut [u32], at: usize, w: Words)
    requires { at + 8 ≤ length nodes.old }
    ensures { nodes.new
        ≡ sets nodes.old at
        (node_words
        (fact_node w.kind w.place w.name w.children w.fact0 w.fact1 w.fact2
        w.fact3)) }
{
    nodes[at] = w.kind;
    nodes[at + node::PLACE] = w.place;
    nodes[at + node::NAME] = w.name;
    nodes[at + node::CHILDREN] = w.children;
    nodes[at + node::FACT0] = w.fact0;
    nodes[at + node::FACT1] = w.fact1;
    nodes[at + node::FACT2] = w.fact2;
    nodes[at + node::FACT3] = w.fact3;
}

// Node n, as far as there is room.
#[tactic(auto, using(theory_grammar::proofs::Laws::sets_out))]
pub fn store(nodes: &mut [u32], n: u32, w: Words)
    requires { n ≤ most_rows }
    ensures { nodes.new
        ≡ sets nodes.old (8 * n)
        (node_words
        (fact_node w.kind w.place w.name w.children w.fact0 w.fact1 w.fact2
        w.fact3)) }
{
    let at = node::WORDS * (n as usize);
    if nodes.len() <= at {
        return;
    }
    if nodes.len() < at + node::WORDS {
        store_part(nodes, at, w);
        return;
    }
    store_whole(nodes, at, w);
}

// Node n with no facts; `name` is a row, or MISSING.
// Stays: MISSING is no None, since it is the word that C reads in a node.
pub fn close(nodes: &mut [u32], n: u32, kind: u32, place: u32, name: u32, children: u32)
    requires { n ≤ most_rows }
    ensures { nodes.new ≡ sets nodes.old (8 * n) (node_words (node kind place name children)) }
{
    store(
        nodes,
        n,
        Words {
            kind,
            place,
            name,
            children,
            ..Words::default()
        },
    );
}

// The state behind a variable at a row.
pub fn variable(nodes: &mut [u32], row: u32, n: u32) -> At
    requires { (row ≤ most_rows) × (n ≤ most_rows) }
    ensures { (result ≡ variable_at (row + 1) (n + 1) row)
        × (nodes.new ≡ sets nodes.old (8 * n) (node_words (node NodeVariable row row 0))) }
{
    close(nodes, n, node_kind::VARIABLE, row, row, 0);
    At {
        variable: true,
        ..At::new(row + 1, n + 1, row)
    }
}

// The state behind a number at a row, with its value's words.
pub fn number(nodes: &mut [u32], row: u32, n: u32, low: u32, high: u32) -> At
    requires { (row ≤ most_rows) × (n ≤ most_rows) }
    ensures { (result ≡ state_at (row + 1) (n + 1) row)
        × (nodes.new
        ≡ sets nodes.old (8 * n) (node_words (fact_node NodeNumber row missing 0 low high 0 0))) }
{
    store(
        nodes,
        n,
        Words {
            kind: node_kind::NUMBER,
            place: row,
            name: MISSING,
            fact0: low,
            fact1: high,
            ..Words::default()
        },
    );
    At::new(row + 1, n + 1, row)
}

// ---- refusals with what would have fitted

// 21, where the kinds of a set would have fitted.
pub fn wrong(set: u64) -> Syntax
    ensures { result ≡ wrong set }
{
    Syntax::Wanted(
        (set % limit::ABOVE_WORD) as u32,
        (set / limit::ABOVE_WORD) as u32,
    )
}

// 21, where one kind alone would have fitted.
pub fn wanted(kind: u32) -> Syntax
    requires { kind ≤ 52 }
    ensures { result ≡ wrong (only kind) }
{
    wrong(1 << kind)
}

// That a row is of a kind, or else its refusal, with that kind alone.
pub fn want(rows: &[u32], count: u32, row: u32, kind: u32) -> Result<(), Refusal>
    requires { (count * 8 ≤ length rows.now) × (kind ≤ 52) }
    ensures ok { OnOk result (kind_word rows.now count row ≡ kind) }
    ensures err { IfErr result (λ e. (kind_word rows.now count row ≢ kind)
        × (e ≡ refusal (wrong (only kind)) row)) }
{
    if kind_at(rows, count, row) != kind {
        return Err(Refusal::new(wanted(kind), row));
    }
    Ok(())
}

// A refusal, 21 with another set.
fn retold(set: u64, why: Syntax) -> Syntax
    ensures { result ≡ retold set why }
{
    match why {
        Syntax::Wanted(_, _) => wrong(set),
        _ => why,
    }
}

// The kind so many rows before one, or that of the first row where there are fewer.
fn kind_before(rows: &[u32], count: u32, row: u32, back: u32) -> u32
    requires { count * 8 ≤ length rows.now }
    ensures { result ≡ kind_word rows.now count (row - back) }
{
    kind_at(rows, count, row.saturating_sub(back))
}

// Whether the row in front of one is a name behind a dot.
#[tactic(auto, unfolding(crate::specs::Fitting::dotted_words))]
fn is_dotted(rows: &[u32], count: u32, row: u32) -> bool
    requires { count * 8 ≤ length rows.now }
    ensures { result ≡ dotted_words rows.now count row }
{
    let name = kind_before(rows, count, row, 1);
    let dot = kind_before(rows, count, row, 2);
    (name == IDENTIFIER) & (dot == DOT)
}

// What goes on with the expression or arguments that s stands behind.
#[tactic(auto, unfolding(crate::specs::Fitting::onward_words))]
fn onward(rows: &[u32], count: u32, s: At) -> u64
    requires { count * 8 ≤ length rows.now }
    ensures { result ≡ onward_words rows.now count s.summed s.row }
{
    let shifts = if s.summed { 0 } else { fits::SHIFTS };
    let call = if is_dotted(rows, count, s.row) {
        fits::LPAREN
    } else {
        0
    };
    fits::ONS + shifts + call
}

// 21 behind an expression or arguments, which any of a set would have ended.
#[tactic(auto, using(crate::proofs::Fitting::onward_low))]
pub fn unended(rows: &[u32], count: u32, s: At, ends: u64) -> Syntax
    requires { (count * 8 ≤ length rows.now) × (ends < 2 ^ 53) }
    ensures { result ≡ wrong (onward_words rows.now count s.summed s.row + ends) }
{
    wrong(onward(rows, count, s) + ends)
}

// That the expression or arguments that s stands behind end at a row of a kind, or else 21, where any of a set would have ended them.
pub fn want_end(rows: &[u32], count: u32, s: At, kind: u32, ends: u64) -> Result<(), Refusal>
    requires { (count * 8 ≤ length rows.now) × (ends < 2 ^ 53) }
    ensures ok { OnOk result (kind_word rows.now count s.row ≡ kind) }
    ensures err { IfErr result (λ e. (kind_word rows.now count s.row ≢ kind)
        × (e ≡ refusal (wrong (onward_words rows.now count s.summed s.row + ends)) s.row)) }
{
    if kind_at(rows, count, s.row) != kind {
        return Err(Refusal::new(unended(rows, count, s, ends), s.row));
    }
    Ok(())
}

// The header of the declaration whose word is at the row, a name and `{`: the state at the first thing in its braces.
pub fn opened(rows: &[u32], count: u32, row: u32, node: u32) -> Result<At, Refusal>
    requires { AsksOpen rows.now count row node 0 }
    ensures { Header rows.now count row node result }
{
    let name = row + 1;
    want(rows, count, name, IDENTIFIER)?;
    let open = name + 1;
    want(rows, count, open, LBRACE)?;
    let first = open + 1;
    Ok(At::new(first, node, first))
}
