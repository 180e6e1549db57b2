// Rows into lent words.
ghost use Rattle.std.specs.Prelude.{◌≡◌, ◌+◌, ◌<◌, ◌^◌};
ghost use Rattle.rows.specs.Shape.{as_row};
ghost use Rattle.scan_puts.specs.Put.{row_of, placed};

use rows::shape::Row;
use rules::{Cursor, limit, row};
use scan_reader::Brief;

// The row that was told at a place, behind so many comments.
fn told_row(at: Cursor, comments: u32, told: Brief) -> Row
    requires { at.offset.0 + told.size < 2 ^ 32 }
    ensures { as_row result ≡ row_of at comments told }
{
    Row {
        kind: told.kind,
        start: at.offset.0,
        end: at.offset.0 + told.size as u32,
        line: at.line.0,
        column: at.column.0,
        low: (told.bits % limit::ABOVE_WORD) as u32,
        high: (told.bits / limit::ABOVE_WORD) as u32,
        comments,
    }
}

// The row that was told at a place, behind so many comments and n other rows, if there is room for it.
pub fn put_behind(rows: &mut [u32], n: usize, at: Cursor, comments: u32, told: Brief)
    requires { at.offset.0 + told.size < 2 ^ 32 }
    ensures { rows.new ≡ placed n (row_of at comments told) rows.old }
{
    if n < rows.len() / row::WORDS {
        let base = n * row::WORDS;
        told_row(at, comments, told).put(&mut rows[base..]);
    }
}
