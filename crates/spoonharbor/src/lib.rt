// The outer face for C and Rust: every call over lent words, its answer in eight words of one layout (crate `answers`,
// include/spoonharbor.h). Nothing is asked of the caller but the sizes that the signatures say.
pub mod change;
pub mod figures;
pub mod layouts;

ghost use Rattle.std.specs.Prelude.{◌≡◌, cond, get_or, length};
ghost use Rattle.rules.specs.Rows.{well_formed};
ghost use Rattle.rules.specs.Scan.{scan_told, scan_leaves, room_of};
ghost use Rattle.rules.specs.Edit.{edit_told, edit_leaves, restart_told};
ghost use Rattle.rules.specs.Sets.{from_section};
ghost use Rattle.rules.specs.Calls.{member_asked, size_asked, parse_told, parse_leaves, node_room};
ghost use Rattle.answers.specs.Layout.{told_words, asked_words, restart_words, parsed_words, table_of, spelling_words};
ghost use Rattle.rules_files.specs.Files.{store_told, store_leaves, load_told, load_leaves};
ghost use Rattle.rules_forms.specs.Forms.{beside_told, beside_leaves, move_told, move_leaves};
ghost use Rattle.rules_mend.specs.Mend.{mend_told, mend_leaves, list_leaves};
ghost use Rattle.file_answers.specs.Layout.{stored_words, loaded_words, beside_words, moved_words, mended_words};
ghost use Rattle.spoonharbor.specs.Version.{version};

use answers::{no_place, put, put_asked, put_parsed, put_restart, put_told, table_of};
use file_answers::{put_beside, put_loaded, put_mended, put_moved, put_stored};
use refusals::outer_number;
use rules::row;

// The library's version: major, minor and patch in a byte each.
#[unsafe(no_mangle)]
pub extern "C" fn spoonharbor_version() -> u32
    ensures { result ≡ version }
{
    0x00_09_00
}

// The rows of a text into lent words, and the table or the refusal into the answer.
#[unsafe(no_mangle)]
pub extern "C" fn spoonharbor_scan(text: &[u8], rows: &mut [u32], answer: &mut [u32; 8])
    ensures told { answer.new ≡ told_words (scan_told text.now (room_of rows.old)) }
    ensures left { rows.new ≡ scan_leaves text.now rows.old }
{
    put_told(answer, scan::scan(text, rows));
}

// 1 if a table is well formed, 0 if not.
#[unsafe(no_mangle)]
pub extern "C" fn spoonharbor_well_formed(rows: &[u32], table: &[u32; 8]) -> u32
    ensures { result ≡ cond (well_formed rows.now (table_of table.now)) 1 0 }
{
    if rows::well_formed(rows, table_of(table)) {
        1
    } else {
        0
    }
}

// Where the spelling of a row starts and ends in the text, or a refusal.
#[unsafe(no_mangle)]
pub extern "C" fn spoonharbor_spelling(
    text: &[u8],
    rows: &[u32],
    table: &[u32; 8],
    row: u32,
    answer: &mut [u32; 8],
)
    ensures { answer.new
        ≡ spelling_words text.now rows.now (table_of table.now) row }
{
    match rows::spelling_judge(text, rows, table_of(table), row) {
        Ok(()) => {
            let at = (row as usize) * row::WORDS;
            put(
                answer,
                0,
                no_place(),
                rows[at + row::START],
                rows[at + row::END],
                0,
                0,
            );
        }
        Err(e) => {
            put(answer, outer_number(e.why), e.at, 0, 0, 0, 0);
        }
    }
}

// The nodes of a table's program into lent words, and how many they are, or a refusal.
#[unsafe(no_mangle)]
pub extern "C" fn spoonharbor_parse(
    text: &[u8],
    rows: &[u32],
    table: &[u32; 8],
    nodes: &mut [u32],
    answer: &mut [u32; 8],
)
    ensures told { answer.new
        ≡ parsed_words
        (parse_told text.now rows.now (table_of table.now)
        (node_room nodes.old)) }
    ensures left { nodes.new
        ≡ parse_leaves text.now rows.now (table_of table.now) nodes.old }
{
    put_parsed(answer, parse::parse(text, rows, table_of(table), nodes));
}

// The new table of a text in which the bytes from a to b became n others, by a window of the new text.
#[unsafe(no_mangle)]
pub extern "C" fn spoonharbor_edit(
    old: &[u32],
    table: &[u32; 8],
    a: u32,
    b: u32,
    n: u32,
    start: u32,
    window: &[u8],
    new: &mut [u32],
    answer: &mut [u32; 8],
)
    ensures told { answer.new
        ≡ told_words
        (edit_told old.now (table_of table.now) a b n start window.now
        (room_of new.old)) }
    ensures left { new.new
        ≡ edit_leaves old.now (table_of table.now) a b n start window.now
        new.old }
{
    put_told(
        answer,
        edit::edit(old, table_of(table), a, b, n, start, window, new),
    );
}

// Where the window for an edit at a must start.
#[unsafe(no_mangle)]
pub extern "C" fn spoonharbor_restart(old: &[u32], table: &[u32; 8], a: u32, answer: &mut [u32; 8])
    ensures { answer.new ≡ restart_words (restart_told old.now (table_of table.now) a) }
{
    put_restart(answer, edit::restart(old, table_of(table), a));
}

// Whether a program kind allows a method.
#[unsafe(no_mangle)]
pub extern "C" fn spoonharbor_allows(kind: u32, method: u32, answer: &mut [u32; 8])
    ensures { answer.new ≡ asked_words (member_asked kind method) }
{
    put_asked(answer, methods::allows(kind, method));
}

// How many methods a program kind allows.
#[unsafe(no_mangle)]
pub extern "C" fn spoonharbor_set_size(kind: u32, answer: &mut [u32; 8])
    ensures { answer.new ≡ asked_words (size_asked kind) }
{
    put_asked(answer, methods::set_size(kind));
}

// The program kind of a section's text.
#[unsafe(no_mangle)]
pub extern "C" fn spoonharbor_section_kind(text: &[u8]) -> u32
    ensures { result ≡ from_section text.now }
{
    methods::section_kind(text)
}

// A table into a lent file, and its blocks and bytes or the refusal into the answer.
#[unsafe(no_mangle)]
pub extern "C" fn spoonharbor_store(
    rows: &[u32],
    table: &[u32; 8],
    file: &mut [u8],
    answer: &mut [u32; 8],
)
    ensures told { answer.new
        ≡ stored_words (store_told rows.now (table_of table.now) (length file.old)) }
    ensures left { file.new ≡ store_leaves rows.now (table_of table.now) file.old }
{
    put_stored(answer, file_store::store(rows, table_of(table), file));
}

// The rows of a file into lent words, and its table or the refusal into the answer.
#[unsafe(no_mangle)]
pub extern "C" fn spoonharbor_load(file: &[u8], rows: &mut [u32], answer: &mut [u32; 8])
    ensures told { answer.new ≡ loaded_words (load_told file.now (room_of rows.old)) }
    ensures left { rows.new ≡ load_leaves file.now rows.old }
{
    put_loaded(answer, file_load::load(file, rows));
}

// A file of either form beside its text into the rows of its table, and the table or the refusal into the answer.
#[unsafe(no_mangle)]
pub extern "C" fn spoonharbor_load_beside(
    text: &[u8],
    file: &[u8],
    rows: &mut [u32],
    answer: &mut [u32; 8],
)
    ensures told { answer.new
        ≡ beside_words (beside_told text.now file.now (room_of rows.old)) }
    ensures left { rows.new ≡ beside_leaves text.now file.now rows.old }
{
    put_beside(answer, file_beside::load_beside(text, file, rows));
}

// A file of either form into the file of the form of a number, beside its text, and how long that is, or the refusal, into the answer.
#[unsafe(no_mangle)]
pub extern "C" fn spoonharbor_move(
    text: &[u8],
    file: &[u8],
    form: u32,
    moved: &mut [u8],
    answer: &mut [u32; 8],
)
    ensures told { answer.new
        ≡ moved_words (move_told text.now file.now form (length moved.old)) }
    ensures left { moved.new ≡ move_leaves text.now file.now form moved.old }
{
    put_moved(answer, file_move::move_file(text, file, form, moved));
}

// A file in the first bytes of lent memory mended to what a scan of the text stores, the blocks that differed listed, and how long the file
// is and how many are listed, or the refusal, into the answer.
#[unsafe(no_mangle)]
pub extern "C" fn spoonharbor_mend(
    text: &[u8],
    form: u32,
    file: &mut [u8],
    size: usize,
    blocks: &mut [u32],
    answer: &mut [u32; 8],
)
    ensures told { answer.new
        ≡ mended_words (mend_told text.now form file.old size blocks.old) }
    ensures left { file.new ≡ mend_leaves text.now form file.old size blocks.old }
    ensures listed { blocks.new ≡ list_leaves text.now form file.old size blocks.old }
{
    put_mended(answer, file_mend::mend(text, form, file, size, blocks));
}
