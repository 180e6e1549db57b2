// Whether the lent nodes are the lent text's tree: the table is the text's scan and the nodes are its parse, every word of both. Scan and
// parse are made once more, into a scratch that the caller lends.
#![tactic(auto)]

ghost use Rattle.std.specs.Prelude.{◌≡◌, ◌≤◌, length, take};
ghost use Rattle.rules.specs.Kinds.{same_bytes};
ghost use Rattle.rules.specs.Scan.{scan_leaves};
ghost use Rattle.rules.specs.Calls.{parse_leaves};
ghost use Rattle.rules_layout.specs.Layout.{is_whole, is_scanned};
ghost use Rattle.layout_judge.specs.Judging.{same_table, is_parsed};

use rules::{Ending, Table, node, row};

// The words of a scratch: room for the rows, or the nodes, of the longest text.
pub const SCRATCH: usize = 524296;

// Whether the first n words of one are those that are lent first.
fn begins_with(a: &[u32], lent: &[u32], n: usize) -> bool
    requires { n ≤ length a.now }
    ensures { result ≡ same_bytes (take n a.now) (take n lent.now) }
{
    lent.starts_with(&a[..n])
}

// Whether no refusal ends a table.
fn is_whole(ending: Ending) -> bool
    ensures { result ≡ is_whole ending }
{
    match ending {
        None => true,
        Some(_) => false,
    }
}

// Whether no refusal ends two tables, of as many rows and of texts as long.
#[tactic(auto, unfolding(crate::specs::Judging::same_table))]
fn same_table(fresh: Table, table: Table) -> bool
    ensures { result ≡ same_table fresh table }
{
    is_whole(fresh.ending)
        && is_whole(table.ending)
        && table.count == fresh.count
        && table.length == fresh.length
}

// Whether a table is that of the text, to the text's end. The text's rows are left in the scratch.
pub fn is_scan(text: &[u8], rows: &[u32], table: Table, scratch: &mut [u32; SCRATCH]) -> bool
    ensures told { result ≡ is_scanned text.now rows.now table }
    ensures left { scratch.new ≡ scan_leaves text.now scratch.old }
{
    let Ok(fresh) = scan::scan(text, scratch) else {
        return false;
    };
    if !same_table(fresh, table) {
        return false;
    }
    begins_with(scratch, rows, (fresh.count as usize) * row::WORDS)
}

// Whether nodes are those that a parse of the table gives. They are left in the scratch.
// Stays text, rows and table one by one: parse takes them so, and a struct of them would be no plainer, as it would be taken apart here.
pub fn is_parse(
    text: &[u8],
    rows: &[u32],
    table: Table,
    nodes: &[u32],
    count: u32,
    scratch: &mut [u32; SCRATCH],
) -> bool
    ensures told { result ≡ is_parsed text.now rows.now table nodes.now count }
    ensures left { scratch.new ≡ parse_leaves text.now rows.now table scratch.old }
{
    let Ok(made) = parse::parse(text, rows, table, scratch) else {
        return false;
    };
    if made != count {
        return false;
    }
    begins_with(scratch, nodes, (made as usize) * node::WORDS)
}
