// The listing: a text's rows, then its nodes or its refusal, as bytes.
#![tactic(auto)]

ghost use Rattle.std.specs.Prelude.{◌≡◌, ◌++◌, ◌≤◌, length, drop};
ghost use Rattle.lister_parts.specs.Adds.{Adds, IsPrefixLen, most_of_nodes, most_listing};
ghost use Rattle.lister_lines.specs.Lines.{listed_tree, listed_text, listed};

use lister_parts::{list_nodes, list_rows, refusal_line};
use refusals::{outer_number, reason_number};
use rules::{Cursor, Table};

// The longest text that is listed.
const MOST_TEXT: usize = 16384;

// As many bytes as a listing may have.
pub const MOST_LISTING: usize = 350000;

// The nodes, headed, or why there are none.
fn list_tree(out: &mut [u8], at: usize, text: &[u8], rows: &[u32], table: Table) -> usize
    ensures adds { Adds (listed_tree text.now rows.now table) out.old at out.new result }
    ensures table_len_bound { length (listed_tree text.now rows.now table) ≤ most_of_nodes }
{
    let mut nodes = [0u32; 16000];
    match parse::parse(text, rows, table, &mut nodes) {
        Ok(count) => list_nodes(out, at, &nodes, count),
        Err(e) => refusal_line(out, at, reason_number(e.why), e.at),
    }
}

// What is listed of a text that is short enough.
fn list_text(out: &mut [u8], text: &[u8]) -> usize
    ensures adds { Adds (listed_text text.now) out.old 0 out.new result }
    ensures text_len_bound { length (listed_text text.now) ≤ most_listing }
{
    let mut rows = [0u32; 16000];
    match scan::scan(text, &mut rows) {
        Ok(table) => {
            let listed = list_rows(out, 0, &rows, table.count);
            list_tree(out, listed, text, &rows, table)
        }
        Err(e) => {
            let listed = list_rows(out, 0, &rows, e.rows);
            refusal_line(out, listed, outer_number(e.why), e.at)
        }
    }
}

// The listing of a text, at the start of `out`: how many bytes it has. A text of at most 16,384 bytes is read into 2,000 rows and 2,000 nodes; of a
// longer one only the refusal is listed.
pub fn listing(text: &[u8], out: &mut [u8; MOST_LISTING]) -> usize
    ensures prefix_len { IsPrefixLen result out.new }
    ensures value { result ≡ length (listed text.now) }
    ensures out_after { out.new ≡ listed text.now ++ drop result out.old }
{
    if MOST_TEXT < text.len() {
        return refusal_line(out, 0, 1, Cursor::start());
    }
    list_text(out, text)
}
