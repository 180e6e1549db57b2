// The exports for C: each call of the outer face (crate `spoonharbor`) under the same name, with the same contract. The toolchain makes a library or
// an archive of a crate and never both, and no crate stands on an archive: so the face is a library, of whose calls the theorems are, and this
// crate is the archive. That an export is asked and tells what the face's call is and does, word for word, is proved in proofs/Same.antt.
#![tactic(auto)]

ghost use Rattle.std.specs.Prelude.{◌≡◌, cond, length};
ghost use Rattle.rules.specs.Rows.{well_formed};
ghost use Rattle.rules.specs.Scan.{scan_told, scan_leaves, room_of};
ghost use Rattle.rules.specs.Edit.{edit_told, edit_leaves, restart_told};
ghost use Rattle.rules.specs.Sets.{from_section};
ghost use Rattle.rules.specs.Calls.{member_asked, size_asked, parse_told, parse_leaves, node_room};
ghost use Rattle.answers.specs.Layout.{told_words, asked_words, restart_words, parsed_words, table_of, spelling_words};
ghost use Rattle.rules_files.specs.Files.{store_told, store_leaves, load_told, load_leaves};
ghost use Rattle.rules_forms.specs.Forms.{beside_told, beside_leaves, move_told, move_leaves};
ghost use Rattle.rules_mend.specs.Mend.{mend_told, mend_leaves, list_leaves};
ghost use Rattle.file_answers.specs.Layout.{stored_words, loaded_words, beside_words, moved_words, mended_words};
ghost use Rattle.spoonharbor.specs.Version.{version};
ghost use Rattle.edit_change.specs.Change.{change_told, change_leaves};
ghost use Rattle.rules_layout.specs.Layout.{layout_told, layout_leaves};
ghost use Rattle.layout.specs.Laying.{scratch_leaves};
ghost use Rattle.layout_answers.specs.Words.{laid_words};
ghost use Rattle.rules_tally.specs.Calls.{counting_number, joining_number, counted, joined_counts, tallied, joined, tally_in, tally_words};

use layout_judge::SCRATCH;

// The library's version: major, minor and patch in a byte each.
#[unsafe(no_mangle)]
pub extern "C" fn spoonharbor_version() -> u32
    ensures { result ≡ version }
{
    spoonharbor::spoonharbor_version()
}

// The rows of a text into lent words, and the table or the refusal into the answer.
#[unsafe(no_mangle)]
pub extern "C" fn spoonharbor_scan(text: &[u8], rows: &mut [u32], answer: &mut [u32; 8])
    ensures told { answer.new ≡ told_words (scan_told text.now (room_of rows.old)) }
    ensures left { rows.new ≡ scan_leaves text.now rows.old }
{
    spoonharbor::spoonharbor_scan(text, rows, answer);
}

// 1 if a table is well formed, 0 if not.
#[unsafe(no_mangle)]
pub extern "C" fn spoonharbor_well_formed(rows: &[u32], table: &[u32; 8]) -> u32
    ensures { result ≡ cond (well_formed rows.now (table_of table.now)) 1 0 }
{
    spoonharbor::spoonharbor_well_formed(rows, table)
}

// Where the spelling of a row starts and ends in the text, or a refusal.
#[unsafe(no_mangle)]
pub extern "C" fn spoonharbor_spelling(
    text: &[u8],
    rows: &[u32],
    table: &[u32; 8],
    row: u32,
    answer: &mut [u32; 8],
)
    ensures { answer.new
        ≡ spelling_words text.now rows.now (table_of table.now) row }
{
    spoonharbor::spoonharbor_spelling(text, rows, table, row, answer);
}

// The nodes of a table's program into lent words, and how many they are, or a refusal.
#[unsafe(no_mangle)]
pub extern "C" fn spoonharbor_parse(
    text: &[u8],
    rows: &[u32],
    table: &[u32; 8],
    nodes: &mut [u32],
    answer: &mut [u32; 8],
)
    ensures told { answer.new
        ≡ parsed_words
        (parse_told text.now rows.now (table_of table.now)
        (node_room nodes.old)) }
    ensures left { nodes.new
        ≡ parse_leaves text.now rows.now (table_of table.now) nodes.old }
{
    spoonharbor::spoonharbor_parse(text, rows, table, nodes, answer);
}

// The new table of a text in which the bytes from a to b became n others, by a window of the new text.
#[unsafe(no_mangle)]
pub extern "C" fn spoonharbor_edit(
    old: &[u32],
    table: &[u32; 8],
    a: u32,
    b: u32,
    n: u32,
    start: u32,
    window: &[u8],
    new: &mut [u32],
    answer: &mut [u32; 8],
)
    ensures told { answer.new
        ≡ told_words
        (edit_told old.now (table_of table.now) a b n start window.now
        (room_of new.old)) }
    ensures left { new.new
        ≡ edit_leaves old.now (table_of table.now) a b n start window.now
        new.old }
{
    spoonharbor::spoonharbor_edit(old, table, a, b, n, start, window, new, answer);
}

// Where the window for an edit at a must start.
#[unsafe(no_mangle)]
pub extern "C" fn spoonharbor_restart(old: &[u32], table: &[u32; 8], a: u32, answer: &mut [u32; 8])
    ensures { answer.new ≡ restart_words (restart_told old.now (table_of table.now) a) }
{
    spoonharbor::spoonharbor_restart(old, table, a, answer);
}

// Whether a program kind allows a method.
#[unsafe(no_mangle)]
pub extern "C" fn spoonharbor_allows(kind: u32, method: u32, answer: &mut [u32; 8])
    ensures { answer.new ≡ asked_words (member_asked kind method) }
{
    spoonharbor::spoonharbor_allows(kind, method, answer);
}

// How many methods a program kind allows.
#[unsafe(no_mangle)]
pub extern "C" fn spoonharbor_set_size(kind: u32, answer: &mut [u32; 8])
    ensures { answer.new ≡ asked_words (size_asked kind) }
{
    spoonharbor::spoonharbor_set_size(kind, answer);
}

// The program kind of a section's text.
#[unsafe(no_mangle)]
pub extern "C" fn spoonharbor_section_kind(text: &[u8]) -> u32
    ensures { result ≡ from_section text.now }
{
    spoonharbor::spoonharbor_section_kind(text)
}

// A table into a lent file, and its blocks and bytes or the refusal into the answer.
#[unsafe(no_mangle)]
pub extern "C" fn spoonharbor_store(
    rows: &[u32],
    table: &[u32; 8],
    file: &mut [u8],
    answer: &mut [u32; 8],
)
    ensures told { answer.new
        ≡ stored_words (store_told rows.now (table_of table.now) (length file.old)) }
    ensures left { file.new ≡ store_leaves rows.now (table_of table.now) file.old }
{
    spoonharbor::spoonharbor_store(rows, table, file, answer);
}

// The rows of a file into lent words, and its table or the refusal into the answer.
#[unsafe(no_mangle)]
pub extern "C" fn spoonharbor_load(file: &[u8], rows: &mut [u32], answer: &mut [u32; 8])
    ensures told { answer.new ≡ loaded_words (load_told file.now (room_of rows.old)) }
    ensures left { rows.new ≡ load_leaves file.now rows.old }
{
    spoonharbor::spoonharbor_load(file, rows, answer);
}

// A file of either form beside its text into the rows of its table, and the table or the refusal into the answer.
#[unsafe(no_mangle)]
pub extern "C" fn spoonharbor_load_beside(
    text: &[u8],
    file: &[u8],
    rows: &mut [u32],
    answer: &mut [u32; 8],
)
    ensures told { answer.new
        ≡ beside_words (beside_told text.now file.now (room_of rows.old)) }
    ensures left { rows.new ≡ beside_leaves text.now file.now rows.old }
{
    spoonharbor::spoonharbor_load_beside(text, file, rows, answer);
}

// A file of either form into the file of the form of a number, beside its text, and how long that is, or the refusal, into the answer.
#[unsafe(no_mangle)]
pub extern "C" fn spoonharbor_move(
    text: &[u8],
    file: &[u8],
    form: u32,
    moved: &mut [u8],
    answer: &mut [u32; 8],
)
    ensures told { answer.new
        ≡ moved_words (move_told text.now file.now form (length moved.old)) }
    ensures left { moved.new ≡ move_leaves text.now file.now form moved.old }
{
    spoonharbor::spoonharbor_move(text, file, form, moved, answer);
}

// A file in the first bytes of lent memory mended to what a scan of the text stores, the blocks that differed listed, and how long the file
// is and how many are listed, or the refusal, into the answer.
#[unsafe(no_mangle)]
pub extern "C" fn spoonharbor_mend(
    text: &[u8],
    form: u32,
    file: &mut [u8],
    size: usize,
    blocks: &mut [u32],
    answer: &mut [u32; 8],
)
    ensures told { answer.new
        ≡ mended_words (mend_told text.now form file.old size blocks.old) }
    ensures left { file.new ≡ mend_leaves text.now form file.old size blocks.old }
    ensures listed { blocks.new ≡ list_leaves text.now form file.old size blocks.old }
{
    spoonharbor::spoonharbor_mend(text, form, file, size, blocks, answer);
}

// The new table of a text in which the bytes from a to b became n others, by all of the new text.
#[unsafe(no_mangle)]
pub extern "C" fn spoonharbor_change(
    old: &[u32],
    table: &[u32; 8],
    a: u32,
    b: u32,
    n: u32,
    text: &[u8],
    new: &mut [u32],
    answer: &mut [u32; 8],
)
    ensures told { answer.new
        ≡ told_words
        (change_told old.now (table_of table.now) a b n text.now
        (room_of new.old)) }
    ensures left { new.new
        ≡ change_leaves old.now (table_of table.now) a b n text.now
        new.old }
{
    spoonharbor::change::spoonharbor_change(old, table, a, b, n, text, new, answer);
}

// The layout of the text whose table and nodes are lent into lent bytes, and how long it is, or the refusal, into the answer.
#[unsafe(no_mangle)]
pub extern "C" fn spoonharbor_layout(
    text: &[u8],
    rows: &[u32],
    table: &[u32; 8],
    nodes: &[u32],
    count: u32,
    scratch: &mut [u32; SCRATCH],
    room: &mut [u8],
    answer: &mut [u32; 8],
)
    ensures told { answer.new
        ≡ laid_words
        (layout_told text.now rows.now (table_of table.now) nodes.now count
        (length room.old)) }
    ensures written { room.new
        ≡ layout_leaves text.now rows.now (table_of table.now) nodes.now count
        room.old }
    ensures left { scratch.new
        ≡ scratch_leaves text.now rows.now (table_of table.now) scratch.old }
{
    spoonharbor::layouts::spoonharbor_layout(
        text, rows, table, nodes, count, scratch, room, answer,
    );
}

// The tally of the first `count` nodes: 0, or 3 and the tally of nothing.
#[unsafe(no_mangle)]
pub extern "C" fn spoonharbor_tally(nodes: &[u32], count: u32, counts: &mut [u64; 20]) -> u32
    ensures told { result ≡ counting_number (tallied nodes.now count) }
    ensures left { counts.new ≡ tally_words (counted (tallied nodes.now count)) }
{
    spoonharbor::figures::spoonharbor_tally(nodes, count, counts)
}

// Two tallies joined: 0, or 70 and the first.
#[unsafe(no_mangle)]
pub extern "C" fn spoonharbor_join(
    first: &[u64; 20],
    second: &[u64; 20],
    sum: &mut [u64; 20],
) -> u32
    ensures told { result ≡ joining_number (joined (tally_in first.now) (tally_in second.now)) }
    ensures left { sum.new
        ≡ tally_words (joined_counts (joined (tally_in first.now) (tally_in second.now))) }
{
    spoonharbor::figures::spoonharbor_join(first, second, sum)
}
