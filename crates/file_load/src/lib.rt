// A file into a table: judged in either form, and a file of form 1 read, 42, 41, 44, 42, 41, 43, then 4, or the table and its rows.
ghost use Rattle.std.specs.Prelude.{◌≡◌, true, ◌++◌, ◌+◌, ◌*◌, ◌≤◌, ◌<◌, length, drop};
ghost use Rattle.rules.specs.Rows.{well_formed};
ghost use Rattle.rules.specs.Scan.{room_of};
ghost use Rattle.rows.specs.Shape.{as_row, row_no, row_before, closes, breaks};
ghost use Rattle.rules_files.specs.Blocks.{file_length, block_bytes};
ghost use Rattle.rules_files.specs.Files.{read_refused, read_ending, ending_in, row_words_in, rows_told, load_told, load_leaves};
ghost use Rattle.rules_forms.specs.declared.Form.TheVariants.{Full};
ghost use Rattle.rules_forms.specs.Short.{on_one_line, short_ending, short_judged};
ghost use Rattle.rules_forms.specs.Forms.{judged};
ghost use Rattle.rules_forms.specs.Shapes.{row_bytes_of, form_of, row_words_of, ending_of, blocks_in};
ghost use Rattle.file_blocks.specs.Standing.{rows_from};
ghost use Rattle.file_load.specs.Judged.{Framed, last_of, plain_rows, blocks_judged, standing};

use file_blocks::{column_of, is_sound, row_in, rows_stand, take_words, word_at};
use file_sizes::{block_rows, length_for, row_bytes, rows_here};
use rows::shape;
use rows::shape::Row;
use rules::{Column, Cursor, Ending, Halt, Lexical, Line, Offset, Outer, Table, kind, limit, row};
use rules_files::{Fault, form};
use rules_forms::{Form, short};

// Where block 0 says each of its words.
const FORM_AT: usize = form::CONTENT;

const LENGTH_AT: usize = FORM_AT + form::WORD;

const COUNT_AT: usize = LENGTH_AT + form::WORD;

const ENDING_AT: usize = COUNT_AT + form::WORD;

const OFFSET_AT: usize = ENDING_AT + form::WORD;

const LINE_AT: usize = OFFSET_AT + form::WORD;

const COLUMN_AT: usize = LINE_AT + form::WORD;

// ---- block 0

// The ending of a lexical refusal's number, at a place.
#[tactic(auto, unfolding(rules_files::specs::Files::read_refused))]
fn read_refused(number: u32, p: Cursor) -> Option<Ending>
    ensures { result ≡ read_refused number p }
{
    match Lexical::try_from(number) {
        Ok(why) => Some(Some(Halt { why, at: p })),
        Err(_) => None,
    }
}

// The ending of a number and a place: none has number 0, and then the place is zero.
fn read_ending(number: u32, p: Cursor) -> Option<Ending>
    ensures { result ≡ read_ending number p }
{
    if number != 0 {
        return read_refused(number, p);
    }
    if p.offset.0 != 0 {
        return None;
    }
    if p.line.0 != 0 {
        return None;
    }
    if p.column.0 != 0 {
        return None;
    }
    Some(None)
}

// The ending that block 0 of form 1 tells.
fn full_ending(file: &[u8]) -> Option<Ending>
    requires { block_bytes ≤ length file.now }
    ensures { result ≡ ending_in file.now }
{
    let number = word_at(file, ENDING_AT);
    let offset = word_at(file, OFFSET_AT);
    let line = word_at(file, LINE_AT);
    let column = word_at(file, COLUMN_AT);
    read_ending(
        number,
        Cursor {
            offset: Offset(offset),
            line: Line(line),
            column: Column(column),
        },
    )
}

// The ending that block 0 of form 2 tells: a refusal's place is that of a text of one line.
fn short_ending(file: &[u8]) -> Option<Ending>
    requires { block_bytes ≤ length file.now }
    ensures { result ≡ short_ending on_one_line file.now }
{
    let number = word_at(file, ENDING_AT);
    let offset = word_at(file, OFFSET_AT);
    if number != 0 {
        return read_refused(
            number,
            Cursor {
                offset: Offset(offset),
                line: Line(1),
                column: Column(column_of(offset)),
            },
        );
    }
    if offset != 0 {
        return None;
    }
    Some(None)
}

// The ending that block 0 of a form tells.
fn ending_in(form: Form, file: &[u8]) -> Option<Ending>
    requires { block_bytes ≤ length file.now }
    ensures { result ≡ ending_of form file.now }
{
    match form {
        Form::Full => full_ending(file),
        Form::Short => short_ending(file),
    }
}

// ---- the blocks behind it

// How many rows must stand one behind the other: all, but the last where the ending is none.
fn plain_rows(read: Option<Ending>, count: u32) -> u32
    ensures { (result ≡ plain_rows read count) × (result ≤ count) }
{
    match read {
        None => 0,
        Some(None) => count.saturating_sub(1),
        Some(Some(_)) => count,
    }
}

// The last of n rows of a block, or the row before them.
fn last_of(form: Form, bytes: &[u8], n: usize, before: Row) -> Row
    requires { 4 + row_bytes_of form * n ≤ length bytes.now }
    ensures { as_row result ≡ last_of (as_row before) (rows_from form n (drop 4 bytes.now)) }
{
    if n == 0 {
        return before;
    }
    row_in(form, bytes, n - 1)
}

// Whether so many rows of the blocks behind block 0 stand, or the first of them that is not sound.
fn judge_blocks(form: Form, file: &[u8], count: u32, plain: u32) -> Result<bool, Fault>
    requires { Framed form count file.now × (plain ≤ count) }
    ensures { result ≡ blocks_judged form plain file.now }
{
    let least = shape::LEAST;
    let span = shape::SPAN;
    let mut last = Row::none();
    let mut stand = true;
    let mut left = count as usize;
    let mut more = plain as usize;
    for k in 1..file.len() / form::BLOCK {
        let block = &file[form::BLOCK * k..form::BLOCK * (k + 1)];
        let number = k as u32;
        let n = rows_here(form, left);
        if !is_sound(block, number, n as u32, row_bytes(form) * n) {
            return Err(Fault::BadBlock(number));
        }
        let m = rows_here(form, more);
        stand = stand & rows_stand(&least, &span, form, block, m, last);
        last = last_of(form, block, m, last);
        left -= n;
        more -= m;
    }
    Ok(stand)
}

// ---- the table

// Row i of the file.
pub fn row_of(form: Form, file: &[u8], count: u32, i: usize) -> Row
    requires { Framed form count file.now × (i < count) }
    ensures { as_row result ≡ row_no (row_words_of form file.now) i }
{
    let rows = block_rows(form);
    let at = form::BLOCK * (1 + i / rows);
    let end = at + form::BLOCK;
    row_in(form, &file[at..end], i % rows)
}

// The row before row i of the file, and before the first a row of zeros.
fn row_before(form: Form, file: &[u8], count: u32, i: usize) -> Row
    requires { Framed form count file.now × (i < count) }
    ensures { as_row result ≡ row_before (row_words_of form file.now) i }
{
    if i == 0 {
        return Row::none();
    }
    row_of(form, file, count, i - 1)
}

// Whether the last row closes the table: it is Eof, at the text's length, and fits behind the row before it.
fn last_closes(form: Form, file: &[u8], count: u32, size: u32, i: usize) -> bool
    requires { Framed form count file.now × (i < count) }
    ensures { result ≡ closes (row_words_of form file.now) size i }
{
    let least = shape::LEAST;
    let span = shape::SPAN;
    let r = row_of(form, file, count, i);
    if r.kind != kind::EOF {
        return false;
    }
    if r.start != size {
        return false;
    }
    r.fits_behind(&least, &span, row_before(form, file, count, i))
}

// Whether a refused ending's place fits behind the last row, within the text's length.
fn place_breaks(form: Form, file: &[u8], count: u32, size: u32, p: Cursor) -> bool
    requires { Framed form count file.now }
    ensures { result ≡ breaks (row_words_of form file.now) size count p }
{
    let offset = p.offset.0;
    if size < offset {
        return false;
    }
    if !shape::place_fits(p) {
        return false;
    }
    if count == 0 {
        return true;
    }
    let r = row_of(form, file, count, count as usize - 1);
    r.is_before(p)
}

// Whether a table is well formed, of which it is known whether its plain rows stand.
fn table_fits(form: Form, file: &[u8], table: Table, stand: bool) -> bool
    requires { Framed form table.count file.now × (stand ≡ standing form table.ending file.now) }
    ensures { result ≡ well_formed (row_words_of form file.now) table }
{
    let count = table.count;
    let size = table.length;
    if limit::MOST_BYTES_U32 < size {
        return false;
    }
    if !stand {
        return false;
    }
    let ending = table.ending;
    match ending {
        None => {
            if count == 0 {
                return false;
            }
            last_closes(form, file, count, size, count as usize - 1)
        }
        Some(e) => place_breaks(form, file, count, size, e.at),
    }
}

// What is told of sound blocks: 43, then 4, or the table.
fn told_rows(
    form: Form,
    file: &[u8],
    table: Table,
    stand: bool,
    room: usize,
) -> Result<Table, Fault>
    requires { Framed form table.count file.now × (stand ≡ standing form table.ending file.now) }
    ensures { result ≡ rows_told (row_words_of form file.now) room table }
{
    let count = table.count;
    if form::MOST_ROWS < count {
        return Err(Fault::NoTable);
    }
    if !table_fits(form, file, table, stand) {
        return Err(Fault::NoTable);
    }
    if room < count as usize {
        return Err(Fault::Outer(Outer::NoRowRoom));
    }
    Ok(table)
}

// What is told of the blocks behind block 0: 41, then 43 and 4.
fn told_blocks(form: Form, file: &[u8], count: u32, room: usize) -> Result<Table, Fault>
    requires { Framed form count file.now }
    ensures { result ≡ blocks_in form file.now room }
{
    let read = ending_in(form, file);
    let stand = judge_blocks(form, file, count, plain_rows(read, count))?;
    let Some(ending) = read else {
        return Err(Fault::NoTable);
    };
    let length = word_at(file, LENGTH_AT);
    told_rows(
        form,
        file,
        Table {
            count,
            length,
            ending,
        },
        stand,
        room,
    )
}

// What is told of a file: 42 for one that is short, 41 for block 0, 44, 42, and then the blocks behind it.
fn told(file: &[u8], room: usize) -> Result<Table, Fault>
    ensures { result ≡ load_told file.now room }
{
    if file.len() < form::BLOCK {
        return Err(Fault::WrongLength);
    }
    if !is_sound(&file[0..form::BLOCK], 0, 0, form::SAID) {
        return Err(Fault::BadBlock(0));
    }
    if word_at(file, FORM_AT) != form::NUMBER {
        return Err(Fault::OtherForm);
    }
    let count = word_at(file, COUNT_AT);
    if file.len() != length_for(Form::Full, count) {
        return Err(Fault::WrongLength);
    }
    told_blocks(Form::Full, file, count, room)
}

// What is told of a file that says 2: 41 for block 0, 42, and then the blocks behind it.
fn short_told(file: &[u8]) -> Result<Table, Fault>
    requires { block_bytes ≤ length file.now }
    ensures { result ≡ short_judged file.now }
{
    if !is_sound(&file[0..form::BLOCK], 0, 0, short::SAID) {
        return Err(Fault::BadBlock(0));
    }
    let count = word_at(file, COUNT_AT);
    if file.len() != length_for(Form::Short, count) {
        return Err(Fault::WrongLength);
    }
    told_blocks(Form::Short, file, count, count as usize)
}

// What is told of a file of either form, in room for all of its rows.
pub fn judge(file: &[u8]) -> Result<Table, Fault>
    ensures { result ≡ judged file.now }
{
    if file.len() < form::BLOCK {
        return Err(Fault::WrongLength);
    }
    if word_at(file, FORM_AT) == short::NUMBER {
        return short_told(file);
    }
    told(file, word_at(file, COUNT_AT) as usize)
}

// The form by which a file is judged.
pub fn form_of(file: &[u8]) -> Form
    requires { block_bytes ≤ length file.now }
    ensures { result ≡ form_of file.now }
{
    if word_at(file, FORM_AT) == short::NUMBER {
        return Form::Short;
    }
    Form::Full
}

// The words of all rows into the first lent words.
pub fn take_rows(file: &[u8], count: u32, rows: &mut [u32])
    requires { Framed Full count file.now × (8 * count ≤ length rows.old) }
    ensures { rows.new ≡ row_words_in file.now ++ drop (8 * count) rows.old }
{
    let all = count as usize;
    let mut done = 0;
    for k in 1..file.len() / form::BLOCK {
        let n = rows_here(Form::Full, all - done);
        let from = done * row::WORDS;
        take_words(
            &file[form::BLOCK * k..form::BLOCK * (k + 1)],
            n * row::WORDS,
            &mut rows[from..],
        );
        done += n;
    }
}

// Read a file: the rows of its table are written into the lent words, or nothing is and why.
pub fn load(file: &[u8], rows: &mut [u32]) -> Result<Table, Fault>
    ensures told { result ≡ load_told file.now (room_of rows.old) }
    ensures left { rows.new ≡ load_leaves file.now rows.old }
{
    let table = told(file, rows.len() / row::WORDS)?;
    take_rows(file, table.count, rows);
    Ok(table)
}
