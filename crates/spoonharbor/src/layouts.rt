// The layout over lent words: a tree written back as source.
ghost use Rattle.std.specs.Prelude.{◌≡◌, length};
ghost use Rattle.rules_layout.specs.Layout.{layout_told, layout_leaves};
ghost use Rattle.answers.specs.Layout.{table_of};
ghost use Rattle.layout.specs.Laying.{scratch_leaves};
ghost use Rattle.layout_answers.specs.Words.{laid_words};

use answers::table_of;
use layout_answers::put_laid;
use layout_judge::SCRATCH;

// The layout of the text whose table and nodes are lent into lent bytes, and how long it is, or the refusal, into the answer.
#[unsafe(no_mangle)]
pub extern "C" fn spoonharbor_layout(
    text: &[u8],
    rows: &[u32],
    table: &[u32; 8],
    nodes: &[u32],
    count: u32,
    scratch: &mut [u32; SCRATCH],
    room: &mut [u8],
    answer: &mut [u32; 8],
)
    ensures told { answer.new
        ≡ laid_words
        (layout_told text.now rows.now (table_of table.now) nodes.now count
        (length room.old)) }
    ensures written { room.new
        ≡ layout_leaves text.now rows.now (table_of table.now) nodes.now count
        room.old }
    ensures left { scratch.new
        ≡ scratch_leaves text.now rows.now (table_of table.now) scratch.old }
{
    put_laid(
        answer,
        layout::lay_out(text, rows, table_of(table), nodes, count, scratch, room),
    );
}
