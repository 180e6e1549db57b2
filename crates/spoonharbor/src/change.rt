// The change over lent words: the edit of whoever holds the whole new text.
ghost use Rattle.std.specs.Prelude.{◌≡◌};
ghost use Rattle.rules.specs.Scan.{room_of};
ghost use Rattle.answers.specs.Layout.{told_words, table_of};
ghost use Rattle.edit_change.specs.Change.{change_told, change_leaves};

use answers::{put_told, table_of};

// The new table of a text in which the bytes from a to b became n others, by all of the new text.
#[unsafe(no_mangle)]
pub extern "C" fn spoonharbor_change(
    old: &[u32],
    table: &[u32; 8],
    a: u32,
    b: u32,
    n: u32,
    text: &[u8],
    new: &mut [u32],
    answer: &mut [u32; 8],
)
    ensures told { answer.new
        ≡ told_words
        (change_told old.now (table_of table.now) a b n text.now
        (room_of new.old)) }
    ensures left { new.new
        ≡ change_leaves old.now (table_of table.now) a b n text.now
        new.old }
{
    put_told(
        answer,
        edit_change::change(old, table_of(table), a, b, n, text, new),
    );
}
