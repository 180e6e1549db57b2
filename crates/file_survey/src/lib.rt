// The first reading of a mending: the rows of a text, a block at a time, held against those of a file. Its table is
// told, and how many blocks are to be listed.
ghost use Rattle.std.specs.Prelude.{◌≡◌, length, Ok};
ghost use Rattle.rules.specs.Text.{start_place, text_judged};
ghost use Rattle.rules_files.specs.Blocks.{per_block, block_bytes};
ghost use Rattle.rules_forms.specs.Shapes.{number_of, row_bytes_of};
ghost use Rattle.scan_part.specs.Part.{Begun, PartOf};
ghost use Rattle.rules_mend.specs.Mend.{fresh_table, fresh_file, listed};
ghost use Rattle.file_survey.specs.Survey.{rows_block, rows_at, PartHeld, RowsHeld};

use file_parts::{put_part, put_said};
use file_patch::count_block;
use file_sizes::{block_rows, length_for};
use rules::{Cursor, Ending, Table, row};
use rules_files::form;
use rules_forms::{Form, short};
use scan_part::{Next, Part, read_part};
use scan_reader::Spot;

// The most words that the rows of one block have.
const PART_WORDS: usize = short::ROWS * row::WORDS;

// What a first reading tells: the table of the text, and how many blocks are to be listed.
#[derive(Clone, Copy)]
pub struct Seen {
    pub table: Table,
    pub listed: usize,
}

// What is told of a part of the rows: what was read, and how many entries there are.
#[derive(Clone, Copy)]
pub struct Step {
    pub part: Part,
    pub listed: usize,
}

// The text's start.
pub fn begin() -> Spot
    ensures { (result.at ≡ 0) × (result.cursor ≡ start_place) }
{
    Spot {
        at: 0,
        cursor: Cursor::start(),
    }
}

// ---- one part

// The next rows of a text as block k.
pub fn fresh_part(form: Form, text: &[u8], spot: Spot, k: u32, fresh: &mut [u8]) -> Part
    requires { Begun text.now spot × (length fresh.old ≡ block_bytes) }
    ensures { PartOf text.now spot.at (per_block (row_bytes_of form)) result
        × (fresh.new ≡ rows_block form k (rows_at form text.now spot.at)) }
{
    let mut words = [0u32; PART_WORDS];
    let part = read_part(text, spot, block_rows(form), &mut words);
    let n = part.count;
    put_part(form, fresh, k, n, &words);
    part
}

// The next rows of a text held against block k of a file. A part that has no rows has no block.
fn hold_part(form: Form, text: &[u8], spot: Spot, k: u32, file: &[u8]) -> Step
    requires { Begun text.now spot }
    ensures { PartHeld form text.now spot.at k file.now result }
{
    let mut fresh = [0u8; form::BLOCK];
    let part = fresh_part(form, text, spot, k, &mut fresh);
    if part.count == 0 {
        return Step { part, listed: 0 };
    }
    Step {
        part,
        listed: count_block(file, k, &fresh),
    }
}

// ---- all rows

// The rows of a text, block by block, held against those of a file. Its table is told, and how many blocks behind block
// 0 differ.
fn survey_rows(form: Form, text: &[u8], file: &[u8]) -> Seen
    requires { text_judged text.now ≡ Ok tt }
    ensures { RowsHeld form text.now file.now result }
{
    let mut spot = begin();
    let mut count = 0;
    let mut listed = 0;
    let mut k: u32 = 1;
    // Stays a loop: each turn reads on from where the part before it ended, and the part says whether it is the last; a
    // for has neither.
    loop {
        let step = hold_part(form, text, spot, k, file);
        let part = step.part;
        let next = part.next;
        count += part.count;
        listed += step.listed;
        match next {
            Next::On(at) => {
                spot = at;
            }
            Next::Over(ending) => {
                return Seen {
                    table: Table {
                        count: count as u32,
                        length: text.len() as u32,
                        ending,
                    },
                    listed,
                };
            }
        }
        k += 1;
    }
}

// The table of a text, and how many blocks of a file are to be listed: those that differ, and the first of a surplus
// tail.
pub fn survey(form: Form, text: &[u8], file: &[u8]) -> Seen
    requires { text_judged text.now ≡ Ok tt }
    ensures { (result.table ≡ fresh_table text.now)
        × (result.listed ≡ length (listed (fresh_file (number_of form) text.now) file.now)) }
{
    let held = survey_rows(form, text, file);
    let table = held.table;
    let mut fresh = [0u8; form::BLOCK];
    put_said(form, &mut fresh, table);
    let listed = held.listed + count_block(file, 0, &fresh);
    if length_for(form, table.count) < file.len() {
        return Seen {
            table,
            listed: listed + 1,
        };
    }
    Seen { table, listed }
}
