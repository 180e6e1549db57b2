// A file moved to a form beside its text: 44, what the file itself is refused for, 4, then 45, or the table's one file of that form.
ghost use Rattle.std.specs.Prelude.{◌≡◌, ◌++◌, ◌≤◌, length, take, drop, Ok};
ghost use Rattle.rules_files.specs.Bytes.{bytes_of};
ghost use Rattle.rules_files.specs.Blocks.{blocks_for, blocks_from, file_length, block_bytes};
ghost use Rattle.rules_forms.specs.Forms.{judged, rows_beside, table_beside, encode_in, move_judged, move_told, move_leaves};
ghost use Rattle.rules_forms.specs.Shapes.{number_of, row_bytes_of, body_of};
ghost use Rattle.file_beside.specs.Counting.{Agrees, last_place};
ghost use Rattle.file_move.specs.Moving.{left_by};

use file_beside::{agrees, put_rows, table_beside};
use file_load::{form_of, judge};
use file_parts::{put_part, put_said};
use file_sizes::{length_for, number, rows_here};
use rules::{Cursor, Outer, Table, row};
use rules_files::{Fault, form};
use rules_forms::{Apart, Form, short};

// The most words that the rows of one block have.
const PART_WORDS: usize = short::ROWS * row::WORDS;

// The bytes of a file, into the first lent ones.
fn copy(from: &[u8], to: &mut [u8])
    requires { length from.now ≤ length to.old }
    ensures { to.new ≡ from.now ++ drop (length from.now) to.old }
{
    // Stays a while loop: copy_from_slice calls C's memmove, and the archive calls memcpy and memset alone (include/spoonharbor.h).
    let mut i = 0;
    while i < from.len() {
        to[i] = from[i];
        i += 1;
    }
}

// The blocks of a file's rows in a form, behind block 0; the place of the last row is told.
fn put_blocks(form: Form, text: &[u8], file: &[u8], table: Table, moved: &mut [u8]) -> Cursor
    requires { Agrees text.now file.now table × (file_length (row_bytes_of form) table.count ≤ length moved.old) }
    ensures { (moved.new
        ≡ (take block_bytes moved.old ++ blocks_from (row_bytes_of form)
        (blocks_for (row_bytes_of form) table.count) 1 table.count
        (bytes_of (body_of form table.count (rows_beside text.now file.now)))) ++ drop
        (file_length (row_bytes_of form) table.count) moved.old)
        × (result ≡ last_place text.now file.now table.count) }
{
    let count = table.count as usize;
    let mut words = [0u32; PART_WORDS];
    let mut here = Cursor::start();
    let mut done = 0;
    for k in 1..length_for(form, table.count) / form::BLOCK {
        let n = rows_here(form, count - done);
        here = put_rows(text, file, table, done, n, here, &mut words);
        let block = &mut moved[form::BLOCK * k..form::BLOCK * (k + 1)];
        put_part(form, block, k as u32, n, &words);
        done += n;
    }
    here
}

// The file of a form, where there is room for it. A file that has the form is copied.
fn put_moved(form: Form, text: &[u8], file: &[u8], table: Table, moved: &mut [u8])
    requires { Agrees text.now file.now table × (file_length (row_bytes_of form) table.count ≤ length moved.old) }
    ensures { moved.new
        ≡ encode_in (number_of form) (rows_beside text.now file.now)
        (table_beside text.now file.now table) ++ drop
        (file_length (row_bytes_of form) table.count) moved.old }
{
    if number(form) == number(form_of(file)) {
        copy(file, moved);
        return;
    }
    let last = put_blocks(form, text, file, table, moved);
    let beside = table_beside(text, file, table, last);
    put_said(form, &mut moved[0..form::BLOCK], beside);
}

// What is told of a file that holds a table: 4, 45 last of all, or the bytes that were written.
fn move_table(
    form: Form,
    text: &[u8],
    file: &[u8],
    table: Table,
    moved: &mut [u8],
) -> Result<u32, Apart>
    requires { judged file.now ≡ Ok table }
    ensures { (result
        ≡ move_judged text.now file.now (number_of form) (length moved.old)
        (Ok table))
        × (moved.new
        ≡ left_by result
        (encode_in (number_of form) (rows_beside text.now file.now)
        (table_beside text.now file.now table)) moved.old) }
{
    let length = length_for(form, table.count);
    if moved.len() < length {
        return Err(Apart::File(Fault::Outer(Outer::NoRowRoom)));
    }
    if !agrees(text, file, table) {
        return Err(Apart::OtherText);
    }
    put_moved(form, text, file, table, moved);
    Ok(length as u32)
}

// A file moved to one of both forms.
fn move_to(form: Form, text: &[u8], file: &[u8], moved: &mut [u8]) -> Result<u32, Apart>
    ensures { (result ≡ move_told text.now file.now (number_of form) (length moved.old))
        × (moved.new
        ≡ move_leaves text.now file.now (number_of form) moved.old) }
{
    let table = judge(file)?;
    move_table(form, text, file, table, moved)
}

// Move a file to the form of a number, into lent memory: so many bytes of it are written, or none and why.
pub fn move_file(text: &[u8], file: &[u8], number: u32, moved: &mut [u8]) -> Result<u32, Apart>
    ensures told { result ≡ move_told text.now file.now number (length moved.old) }
    ensures left { moved.new ≡ move_leaves text.now file.now number moved.old }
{
    if number == form::NUMBER {
        return move_to(Form::Full, text, file, moved);
    }
    if number == short::NUMBER {
        return move_to(Form::Short, text, file, moved);
    }
    Err(Apart::File(Fault::OtherForm))
}
