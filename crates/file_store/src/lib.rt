// A table into a file of form 1: 3, 40, then 4, or the one file that the table has.
ghost use Rattle.std.specs.Prelude.{◌≡◌, ◌++◌, ◌+◌, ◌*◌, ◌≤◌, length, take, drop};
ghost use Rattle.rules_files.specs.Bytes.{bytes_of};
ghost use Rattle.rules_files.specs.Blocks.{blocks_for, blocks_from, file_length, block_bytes};
ghost use Rattle.rules_files.specs.Files.{row_bytes, most_rows, encode, store_told, store_leaves};

use file_blocks::put_block;
use file_parts::put_said;
use file_sizes::{length_for, rows_here};
use rows::well_formed;
use rules::{Outer, Table, row};
use rules_files::{Fault, form};
use rules_forms::Form;

// The blocks of so many rows, behind block 0.
fn put_rows(rows: &[u32], count: u32, file: &mut [u8])
    requires { ((8 * count ≤ length rows.now) × (count ≤ most_rows)) × (file_length row_bytes count ≤ length file.old) }
    ensures { file.new
        ≡ (take block_bytes file.old ++ blocks_from row_bytes (blocks_for row_bytes count) 1 count
        (bytes_of rows.now)) ++ drop (file_length row_bytes count) file.old }
{
    let mut done = 0;
    for k in 1..length_for(Form::Full, count) / form::BLOCK {
        let n = rows_here(Form::Full, count as usize - done);
        let block = &mut file[form::BLOCK * k..form::BLOCK * (k + 1)];
        let part = &rows[done * row::WORDS..(done + n) * row::WORDS];
        put_block(block, k as u32, n as u32, part);
        done += n;
    }
}

// The file of a table that is well formed, where there is room for it.
fn put_file(rows: &[u32], table: Table, file: &mut [u8])
    requires { ((8 * table.count ≤ length rows.now) × (table.count ≤ most_rows))
        × (file_length row_bytes table.count ≤ length file.old) }
    ensures { file.new
        ≡ encode rows.now table ++ drop (file_length row_bytes table.count) file.old }
{
    put_said(Form::Full, &mut file[0..form::BLOCK], table);
    put_rows(rows, table.count, file);
}

// Store a table: so many bytes of the lent file are written, or none and why.
pub fn store(rows: &[u32], table: Table, file: &mut [u8]) -> Result<u32, Fault>
    ensures told { result ≡ store_told rows.now table (length file.old) }
    ensures left { file.new ≡ store_leaves rows.now table file.old }
{
    if !well_formed(rows, table) {
        return Err(Fault::Outer(Outer::NotWellFormed));
    }
    let count = table.count;
    if form::MOST_ROWS < count {
        return Err(Fault::TooManyRows);
    }
    let length = length_for(Form::Full, count);
    if file.len() < length {
        return Err(Fault::Outer(Outer::NoRowRoom));
    }
    put_file(rows, table, file);
    Ok(length as u32)
}
