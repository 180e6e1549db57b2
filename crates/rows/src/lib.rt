// Row tables: the words of a row, when a table is well formed, what a call over a table is told, and spellings.
#![tactic(auto)]

ghost use Rattle.std.specs.Prelude.{◌≡◌, ◌+◌, ◌*◌, ◌≤◌, length};
ghost use Rattle.rules.specs.Rows.{well_formed};
ghost use Rattle.rules.specs.declared.Outer.TheVariants.{NotWellFormed};
ghost use Rattle.rules.specs.Outcomes.{unfit};
ghost use Rattle.rules.specs.Text.{start_place};
ghost use Rattle.rules.specs.Calls.{judged, spelling_judged, spelling_part};
ghost use Rattle.laws.specs.Tests.{all_below};
ghost use Rattle.rows.specs.Shape.{LengthTable, as_row, row_before, stands, closes, breaks};

use rules::{Cursor, Outer, Table, Unfit, kind, limit, row};
use shape::Row;

pub mod shape;

// The row before row i, and before the first a row of zeros.
fn row_before(rows: &[u32], i: usize) -> Row
    requires { i * 8 ≤ length rows.now }
    ensures { as_row result ≡ row_before rows.now i }
{
    if i == 0 {
        Row::none()
    } else {
        Row::at(rows, i - 1)
    }
}

// Whether the first n rows fit where they stand, none of them Eof: two rows a turn, so that the second finds the first at hand.
fn rows_stand(least: &[u32; kind::KINDS], span: &[u32; kind::KINDS], rows: &[u32], n: usize) -> bool
    requires { (n * 8 ≤ length rows.now) × LengthTable least.now span.now }
    ensures { result ≡ all_below (stands rows.now) n }
{
    let mut last = Row::none();
    for pair in 0..n / 2 {
        let r = Row::at(rows, 2 * pair);
        if !r.stands_on(least, span, last) {
            return false;
        }
        let q = Row::at(rows, 2 * pair + 1);
        if !q.stands_on(least, span, r) {
            return false;
        }
        last = q;
    }
    n % 2 == 0 || Row::at(rows, n - 1).stands_on(least, span, last)
}

// Whether row i fits where it stands, and is Eof at the text's size.
fn row_closes(
    least: &[u32; kind::KINDS],
    span: &[u32; kind::KINDS],
    rows: &[u32],
    size: u32,
    i: usize,
) -> bool
    requires { (i * 8 + 8 ≤ length rows.now) × LengthTable least.now span.now }
    ensures { result ≡ closes rows.now size i }
{
    let r = Row::at(rows, i);
    r.kind == kind::EOF && r.start == size && r.fits_behind(least, span, row_before(rows, i))
}

// Whether a refused ending's place fits behind so many rows, within the text's size.
fn place_breaks(rows: &[u32], size: u32, count: usize, p: Cursor) -> bool
    requires { count * 8 ≤ length rows.now }
    ensures { result ≡ breaks rows.now size count p }
{
    p.offset.0 <= size
        && shape::place_fits(p)
        && (count == 0 || Row::at(rows, count - 1).is_before(p))
}

// Whether a table is well formed.
pub fn well_formed(rows: &[u32], table: Table) -> bool
    ensures { result ≡ well_formed rows.now table }
{
    let least = shape::LEAST;
    let span = shape::SPAN;
    let count = table.count as usize;
    let size = table.length;
    if rows.len() < count * row::WORDS {
        return false;
    }
    if limit::MOST_BYTES_U32 < size {
        return false;
    }
    let ending = table.ending;
    match ending {
        None => {
            if count == 0 {
                return false;
            }
            if !rows_stand(&least, &span, rows, count - 1) {
                return false;
            }
            row_closes(&least, &span, rows, size, count - 1)
        }
        Some(e) => {
            if !rows_stand(&least, &span, rows, count) {
                return false;
            }
            place_breaks(rows, size, count, e.at)
        }
    }
}

// Refusal 3, which is of the whole call.
fn unformed() -> Unfit
    ensures { result ≡ unfit NotWellFormed start_place }
{
    Unfit {
        why: Outer::NotWellFormed,
        at: Cursor::start(),
    }
}

// What a call over a text and its table is told before anything else: 1, 2 or 3, or that all is well.
pub fn judge(text: &[u8], rows: &[u32], table: Table) -> Result<(), Unfit>
    ensures { result ≡ judged text.now rows.now table }
{
    scan_place::judge_text(text)?;
    let size = table.length as usize;
    if size != text.len() {
        return Err(unformed());
    }
    if well_formed(rows, table) {
        return Ok(());
    }
    Err(unformed())
}

// What a call for a row's spelling is told: a row number from the count on is refused.
pub fn spelling_judge(text: &[u8], rows: &[u32], table: Table, row: u32) -> Result<(), Unfit>
    ensures { result ≡ spelling_judged text.now rows.now table row }
{
    judge(text, rows, table)?;
    if row < table.count {
        return Ok(());
    }
    Err(unformed())
}

// A row's spelling: the text's part from the row's start to its end, and the empty part at 0 where the call is refused.
pub fn spelling<'a>(text: &'a [u8], rows: &[u32], table: Table, row: u32) -> &'a [u8]
    ensures { result.now ≡ spelling_part text.now rows.now table row }
{
    match spelling_judge(text, rows, table, row) {
        Ok(()) => {
            let r = Row::at(rows, row as usize);
            let start = r.start as usize;
            let end = r.end as usize;
            &text[start..end]
        }
        Err(_) => &text[0..0],
    }
}
