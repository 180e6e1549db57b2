// What an edit keeps of the old table: the rows in front of it, and the place behind them.
#![tactic(auto)]

ghost use Rattle.std.specs.Prelude.{◌≡◌, ◌++◌, ℕ, suc, ◌*◌, ◌≤◌, length, drop};
ghost use Rattle.rules.specs.Text.{start_place};
ghost use Rattle.rules.specs.Rows.{rows_in, words_of};
ghost use Rattle.rules.specs.Edit.{kept, last_end};
ghost use Rattle.rows.specs.Shape.{row_no};
ghost use Rattle.edit_kept.specs.Kept.{EndsRise, Ended};

use rows::shape::Row;
use rules::{Column, Cursor, Line, Offset, row};

// How many of the first rows end below a, found by halving.
pub fn kept_rows(old: &[u32], count: usize, a: u32) -> usize
    requires { (count * 8 ≤ length old.now) × EndsRise old.now count }
    ensures { result ≡ length (kept a (rows_in count old.now)) }
{
    let mut low = 0;
    let mut high = count;
    // Stays a while loop: must-fail/halving_skips_a_row.edit is a wrong step of this halving, which `partition_point` has inside.
    while low < high {
        let middle = low + (high - low) / 2;
        if a <= Row::at(old, middle).end {
            high = middle;
        } else {
            low = middle + 1;
        }
    }
    low
}

// The place behind the first n rows.
pub fn place_behind(old: &[u32], n: usize) -> Cursor
    requires { (n * 8 ≤ length old.now) × ((i : ℕ) → suc i ≡ n → Ended (row_no old.now i)) }
    ensures { result ≡ last_end start_place (rows_in n old.now) }
{
    if n == 0 {
        return Cursor::start();
    }
    let last = Row::at(old, n - 1);
    Cursor {
        offset: Offset(last.end),
        line: Line(last.line),
        column: Column(last.column + (last.end - last.start)),
    }
}

// The first n rows into the first words.
pub fn copy_rows(old: &[u32], n: usize, new: &mut [u32])
    requires { (n * 8 ≤ length old.now) × (n * 8 ≤ length new.old) }
    ensures { new.new ≡ words_of (rows_in n old.now) ++ drop (8 * n) new.old }
{
    let words = n * row::WORDS;
    // Stays a while loop: copy_from_slice calls C's memmove, and the archive calls memcpy and memset alone (include/spoonharbor.h).
    let mut i = 0;
    while i < words {
        new[i] = old[i];
        i += 1;
    }
}
