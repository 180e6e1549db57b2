// Blocks of either form: block 0 of a table, and a block of rows whose eight words are lent.
ghost use Rattle.std.specs.Prelude.{◌≡◌, ◌++◌, ◌+◌, ◌*◌, ◌≤◌, length, take, drop};
ghost use Rattle.rules.specs.Rows.{row_in};
ghost use Rattle.rules_files.specs.Bytes.{bytes_of};
ghost use Rattle.rules_files.specs.Blocks.{block, per_block, block_bytes};
ghost use Rattle.rules_files.specs.Files.{said};
ghost use Rattle.rules_forms.specs.Short.{short_row, shortened, short_said};
ghost use Rattle.rules_forms.specs.Shapes.{row_bytes_of, said_in, body_of};

use file_blocks::{put_block, put_word, seal};
use refusals::lexical_number;
use rules::{Table, row};
use rules_files::form;
use rules_forms::{Form, short};

// What block 0 of form 1 says of a table.
fn words_of(table: Table) -> [u32; 7]
    ensures { result ≡ said table }
{
    let ending = table.ending;
    match ending {
        None => [form::NUMBER, table.length, table.count, 0, 0, 0, 0],
        Some(e) => [
            form::NUMBER,
            table.length,
            table.count,
            lexical_number(e.why),
            e.at.offset.0,
            e.at.line.0,
            e.at.column.0,
        ],
    }
}

// What block 0 of form 2 says of a table.
fn short_words_of(table: Table) -> [u32; 5]
    ensures { result ≡ short_said table }
{
    let ending = table.ending;
    match ending {
        None => [short::NUMBER, table.length, table.count, 0, 0],
        Some(e) => [
            short::NUMBER,
            table.length,
            table.count,
            lexical_number(e.why),
            e.at.offset.0,
        ],
    }
}

// Block 0 of a table.
pub fn put_said(form: Form, bytes: &mut [u8], table: Table)
    requires { length bytes.old ≡ block_bytes }
    ensures { bytes.new ≡ block 0 0 (bytes_of (said_in form table)) }
{
    match form {
        Form::Full => {
            let words = words_of(table);
            put_block(bytes, 0, 0, &words);
        }
        Form::Short => {
            let words = short_words_of(table);
            put_block(bytes, 0, 0, &words);
        }
    }
}

// The first row but its line and column, into the bytes from one on.
fn put_short_row(bytes: &mut [u8], at: usize, rows: &[u32])
    requires { (at + 24 ≤ length bytes.old) × (8 ≤ length rows.now) }
    ensures { bytes.new
        ≡ (take at bytes.old ++ bytes_of (short_row (row_in rows.now))) ++ drop (at + 24)
        bytes.old }
{
    put_word(bytes, at, rows[row::KIND]);
    put_word(bytes, at + form::WORD * row::START, rows[row::START]);
    put_word(bytes, at + form::WORD * row::END, rows[row::END]);
    put_word(bytes, at + form::WORD * short::LOW, rows[row::LOW]);
    put_word(bytes, at + form::WORD * short::HIGH, rows[row::HIGH]);
    put_word(
        bytes,
        at + form::WORD * short::COMMENTS,
        rows[row::COMMENTS],
    );
}

// The first n rows but their lines and columns, for a content.
fn put_short_rows(bytes: &mut [u8], n: usize, rows: &[u32])
    requires { (4 + 24 * n ≤ length bytes.old) × (8 * n ≤ length rows.now) }
    ensures { bytes.new
        ≡ (take 4 bytes.old ++ bytes_of (shortened n rows.now)) ++ drop (4 + 24 * n)
        bytes.old }
{
    for i in 0..n {
        let from = i * row::WORDS;
        put_short_row(bytes, form::CONTENT + short::ROW * i, &rows[from..]);
    }
}

// Block k of the first n rows.
pub fn put_part(form: Form, bytes: &mut [u8], k: u32, n: usize, rows: &[u32])
    requires { ((length bytes.old ≡ block_bytes) × (n ≤ per_block (row_bytes_of form))) × (8 * n ≤ length rows.now) }
    ensures { bytes.new ≡ block k n (bytes_of (body_of form n rows.now)) }
{
    match form {
        Form::Full => {
            let words = n * row::WORDS;
            put_block(bytes, k, n as u32, &rows[0..words]);
        }
        Form::Short => {
            put_short_rows(bytes, n, rows);
            seal(bytes, k, n as u32, short::ROW * n);
        }
    }
}
