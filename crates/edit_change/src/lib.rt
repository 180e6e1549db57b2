// The change call: the edit by the whole new text, which finds its restart place itself.
ghost use Rattle.std.specs.Prelude.{◌≡◌};
ghost use Rattle.rules.specs.Scan.{room_of};
ghost use Rattle.edit_change.specs.Change.{change_told, change_leaves, fits_change};

use edit::{edit_tested, job_of};
use edit_parts::{new_length, refused};
use rows::well_formed;
use rules::{Outer, Table, Told};

// Whether a new text of so many bytes is what a change makes of an old one of `length` bytes.
fn fits(length: u32, a: u32, b: u32, n: u32, size: usize) -> bool
    ensures { result ≡ fits_change length a b n size }
{
    if b < a {
        return false;
    }
    if length < b {
        return false;
    }
    let made = new_length(length, a, b, n);
    let lent = size as u64;
    lent == made
}

// The change: old bytes a to b became n new ones, and the text is all of the new text.
pub fn change(
    old: &[u32],
    table: Table,
    a: u32,
    b: u32,
    n: u32,
    text: &[u8],
    new: &mut [u32],
) -> Told
    ensures told { result ≡ change_told old.now table a b n text.now (room_of new.old) }
    ensures left { new.new ≡ change_leaves old.now table a b n text.now new.old }
{
    if !well_formed(old, table) {
        return refused(Outer::NotWellFormed);
    }
    if !fits(table.length, a, b, n, text.len()) {
        return refused(Outer::EditNotSensible);
    }
    let job = job_of(old, table, a, b, n);
    let start = job.begin.offset.0;
    edit_tested(old, table, a, b, n, start, &text[start as usize..], new)
}
