// The parts of a listing as bytes: rows and nodes, headed, and a refusal.
#![tactic(auto)]

ghost use Rattle.std.specs.Prelude.{◌≡◌, ◌*◌, ◌≤◌, length};
ghost use Rattle.lister_parts.specs.Adds.{Adds, most_of_rows, most_of_nodes, most_of_refusal};
ghost use Rattle.lister_parts.specs.Parts.{row_line, node_line, refusal_line, lines, most_lines, listed_rows, listed_nodes, line_of};
ghost use Rattle.lister_parts.specs.Parts.{heading as Parts·heading};

use line::{bytes, number, put, value, word, words};
use rules::Cursor;

mod line;

// A name, and how many lines follow.
fn heading(out: &mut [u8], at: usize, name: &[u8], count: u32) -> usize
    ensures { Adds (Parts·heading name.now count) out.old at out.new result }
{
    let named = bytes(out, at, name);
    let counted = word(out, named, count);
    put(out, counted, b'\n')
}

// A refusal: its number, offset, line and column.
pub fn refusal_line(out: &mut [u8], at: usize, number: u32, place: Cursor) -> usize
    ensures adds { Adds (refusal_line number place) out.old at out.new result }
    ensures place_len_bound { length (refusal_line number place) ≤ most_of_refusal }
{
    let named = bytes(out, at, b"refused");
    let told = [number, place.offset.0, place.line.0, place.column.0];
    let placed = words(out, named, &told);
    put(out, placed, b'\n')
}

// A row: its number, kind, start, end, line, column and value.
fn row_line(out: &mut [u8], at: usize, i: usize, row: &[u32]) -> usize
    requires { length row.now ≡ 8 }
    ensures { Adds (row_line i row.now) out.old at out.new result }
{
    let numbered = number(out, at, i as u64);
    let placed = words(out, numbered, &row[..5]);
    let valued = value(out, placed, row[5], row[6]);
    put(out, valued, b'\n')
}

// A node: its number and its words.
fn node_line(out: &mut [u8], at: usize, i: usize, node: &[u32]) -> usize
    ensures { Adds (node_line i node.now) out.old at out.new result }
{
    let numbered = number(out, at, i as u64);
    let told = words(out, numbered, node);
    put(out, told, b'\n')
}

// What a line is of.
#[derive(Clone, Copy)]
enum Listed {
    Row,
    Node,
}

// The line of a row or of a node.
fn listed_line(out: &mut [u8], at: usize, what: Listed, i: usize, words: &[u32]) -> usize
    requires { length words.now ≡ 8 }
    ensures { Adds (line_of what i words.now) out.old at out.new result }
{
    match what {
        Listed::Row => row_line(out, at, i, words),
        Listed::Node => node_line(out, at, i, words),
    }
}

// The lines of the first rows, or of the first nodes.
fn lines(out: &mut [u8], at: usize, what: Listed, words: &[u32], count: usize) -> usize
    requires { count * 8 ≤ length words.now }
    ensures { Adds (lines (line_of what) 0 count words.now) out.old at out.new result }
{
    let mut at = at;
    for i in 0..count {
        let from = i * 8;
        at = listed_line(out, at, what, i, &words[from..from + 8]);
    }
    at
}

// The rows, headed.
pub fn list_rows(out: &mut [u8], at: usize, rows: &[u32], count: u32) -> usize
    requires count_in_bounds { count * 8 ≤ length rows.now }
    requires count_le_most_lines { count ≤ most_lines }
    ensures adds { Adds (listed_rows count rows.now) out.old at out.new result }
    ensures rows_len_bound { length (listed_rows count rows.now) ≤ most_of_rows }
{
    let headed = heading(out, at, b"rows", count);
    lines(out, headed, Listed::Row, rows, count as usize)
}

// The nodes, headed.
pub fn list_nodes(out: &mut [u8], at: usize, nodes: &[u32], count: u32) -> usize
    requires count_in_bounds { count * 8 ≤ length nodes.now }
    requires count_le_most_lines { count ≤ most_lines }
    ensures adds { Adds (listed_nodes count nodes.now) out.old at out.new result }
    ensures nodes_len_bound { length (listed_nodes count nodes.now) ≤ most_of_nodes }
{
    let headed = heading(out, at, b"nodes", count);
    lines(out, headed, Listed::Node, nodes, count as usize)
}
