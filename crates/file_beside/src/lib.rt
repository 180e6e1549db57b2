// A file of either form beside its text: whether it agrees with the text, its rows with lines and columns counted in one pass over it,
// and the reading.
ghost use Rattle.std.specs.Prelude.{◌≡◌, true, false, ◌&&◌, ◌++◌, ◌+◌, ◌*◌, ◌≤◌, length, take, drop, eqb, Ok, MatchOption};
ghost use Rattle.rules.specs.Text.{place_at};
ghost use Rattle.rules.specs.Rows.{row_words};
ghost use Rattle.rules.specs.Scan.{room_of};
ghost use Rattle.rows.specs.Shape.{as_row};
ghost use Rattle.rules_forms.specs.declared.Form.TheVariants.{Full};
ghost use Rattle.rules_forms.specs.Forms.{judged, rows_beside, table_beside, ending_agrees, agrees_beside, beside_judged, beside_told, beside_leaves};
ghost use Rattle.file_beside.specs.Counting.{Counts, CountsTo, Holds, Agrees, last_place, rows_agree, placed_at, table_leaves};

use file_load::{form_of, judge, row_of, take_rows};
use rows::shape::Row;
use rules::{Cursor, Ending, Halt, Outer, Table, row};
use rules_files::Fault;
use rules_forms::{Apart, Form};
use scan_place::pass;

// The place of an offset, counted from a place that is not behind it.
fn place_from(text: &[u8], here: Cursor, offset: u32) -> Cursor
    requires { Counts text.now here offset }
    ensures { result ≡ place_at text.now offset }
{
    let from = here.offset.0 as usize;
    pass(&text[from..], here, offset as usize - from)
}

// Whether two places have the same line and column.
fn same_line(p: Cursor, q: Cursor) -> bool
    ensures { result ≡ eqb p.line.0 q.line.0 && eqb p.column.0 q.column.0 }
{
    (p.line.0 == q.line.0) & (p.column.0 == q.column.0)
}

// ---- 45

// The place of the last row of a file of form 1, where each row has the line and column that its start has in the text.
fn rows_agree(text: &[u8], file: &[u8], table: Table) -> Option<Cursor>
    requires { Holds Full text.now file.now table }
    ensures { MatchOption result (rows_agree text.now file.now table ≡ false)
        (λ here. (rows_agree text.now file.now table ≡ true) × (here ≡ last_place text.now file.now table.count)) }
{
    let mut here = Cursor::start();
    for i in 0..table.count as usize {
        let r = row_of(Form::Full, file, table.count, i);
        here = place_from(text, here, r.start);
        if !same_line(r.place(), here) {
            return None;
        }
    }
    Some(here)
}

// Whether an ending has the line and column that its offset has in the text, counted from a place that is not behind it.
fn ending_agrees(text: &[u8], here: Cursor, ending: Ending) -> bool
    requires { CountsTo text.now here ending }
    ensures { result ≡ ending_agrees text.now ending }
{
    match ending {
        None => true,
        Some(e) => same_line(e.at, place_from(text, here, e.at.offset.0)),
    }
}

// Whether a file of form 1 agrees with a text of the length that it tells.
fn full_agrees(text: &[u8], file: &[u8], table: Table) -> bool
    requires { Holds Full text.now file.now table }
    ensures { result ≡ agrees_beside text.now file.now table }
{
    let Some(here) = rows_agree(text, file, table) else {
        return false;
    };
    ending_agrees(text, here, table.ending)
}

// Whether a file that holds a table agrees with a text: in length, and in lines and columns where it has them.
pub fn agrees(text: &[u8], file: &[u8], table: Table) -> bool
    requires { judged file.now ≡ Ok table }
    ensures { result ≡ agrees_beside text.now file.now table }
{
    if text.len() != table.length as usize {
        return false;
    }
    match form_of(file) {
        Form::Full => full_agrees(text, file, table),
        Form::Short => true,
    }
}

// ---- rows

// The place of a row beside its text: as it says, or counted from the place of the row before it.
fn place_of(form: Form, text: &[u8], here: Cursor, r: Row) -> Cursor
    requires { Counts text.now here r.start }
    ensures { result ≡ placed_at form text.now (as_row r) }
{
    match form {
        Form::Full => r.place(),
        Form::Short => place_from(text, here, r.start),
    }
}

// The eight words of a row at a place, into the first lent words.
fn put_row(words: &mut [u32], r: Row, at: Cursor)
    requires { 8 ≤ length words.old }
    ensures { words.new
        ≡ row_words
        (record {
          kind = r.kind;
          start = r.start;
          end = r.end;
          line = at.line.0;
          column = at.column.0;
          low = r.low;
          high = r.high;
          comments = r.comments;
        }) ++ drop 8 words.old }
{
    words[row::KIND] = r.kind;
    words[row::START] = r.start;
    words[row::END] = r.end;
    words[row::LINE] = at.line.0;
    words[row::COLUMN] = at.column.0;
    words[row::LOW] = r.low;
    words[row::HIGH] = r.high;
    words[row::COMMENTS] = r.comments;
}

// The n rows of a file behind its first ones, beside its text, into the first lent words; begin is the place of the row before them.
// The place of the last is told.
pub fn put_rows(
    text: &[u8],
    file: &[u8],
    table: Table,
    from: usize,
    n: usize,
    begin: Cursor,
    words: &mut [u32],
) -> Cursor
    requires { ((Agrees text.now file.now table × (from + n ≤ table.count)) × (8 * n ≤ length words.old))
        × (begin ≡ last_place text.now file.now from) }
    ensures { (words.new
        ≡ take (8 * n) (drop (8 * from) (rows_beside text.now file.now)) ++ drop (8 * n)
        words.old)
        × (result ≡ last_place text.now file.now (from + n)) }
{
    let form = form_of(file);
    let count = table.count;
    let mut here = begin;
    for i in 0..n {
        let r = row_of(form, file, count, from + i);
        here = place_of(form, text, here, r);
        let at = i * row::WORDS;
        put_row(&mut words[at..], r, here);
    }
    here
}

// The table beside its text, where the place of its last row is known.
pub fn table_beside(text: &[u8], file: &[u8], table: Table, last: Cursor) -> Table
    requires { Agrees text.now file.now table × (last ≡ last_place text.now file.now table.count) }
    ensures { result ≡ table_beside text.now file.now table }
{
    match form_of(file) {
        Form::Full => table,
        Form::Short => {
            let ending = table.ending;
            match ending {
                None => table,
                Some(e) => Table {
                    count: table.count,
                    length: table.length,
                    ending: Some(Halt {
                        why: e.why,
                        at: place_from(text, last, e.at.offset.0),
                    }),
                },
            }
        }
    }
}

// ---- the reading

// All rows of a file that agrees with its text, into the first lent words; the table beside them is told.
fn take_beside(text: &[u8], file: &[u8], table: Table, rows: &mut [u32]) -> Table
    requires { Agrees text.now file.now table × (8 * table.count ≤ length rows.old) }
    ensures { (result ≡ table_beside text.now file.now table)
        × (rows.new
        ≡ rows_beside text.now file.now ++ drop (8 * table.count) rows.old) }
{
    match form_of(file) {
        Form::Full => {
            take_rows(file, table.count, rows);
            table
        }
        Form::Short => {
            let all = table.count as usize;
            let last = put_rows(text, file, table, 0, all, Cursor::start(), rows);
            table_beside(text, file, table, last)
        }
    }
}

// What is told of a file that holds a table: 4, 45 last of all, or the table, with its rows written.
fn load_table(text: &[u8], file: &[u8], table: Table, rows: &mut [u32]) -> Result<Table, Apart>
    requires { judged file.now ≡ Ok table }
    ensures { (result ≡ beside_judged text.now file.now (room_of rows.old) (Ok table))
        × (rows.new ≡ table_leaves text.now file.now result rows.old) }
{
    if rows.len() / row::WORDS < table.count as usize {
        return Err(Apart::File(Fault::Outer(Outer::NoRowRoom)));
    }
    if !agrees(text, file, table) {
        return Err(Apart::OtherText);
    }
    Ok(take_beside(text, file, table, rows))
}

// Read a file of either form beside its text: the rows of its table are written into the lent words, or nothing is and why.
pub fn load_beside(text: &[u8], file: &[u8], rows: &mut [u32]) -> Result<Table, Apart>
    ensures told { result ≡ beside_told text.now file.now (room_of rows.old) }
    ensures left { rows.new ≡ beside_leaves text.now file.now rows.old }
{
    let table = judge(file)?;
    load_table(text, file, table, rows)
}
