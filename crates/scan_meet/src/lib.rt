// Where an old row meets: a pointer into the old rows that only moves forward.
#![tactic(auto)]

ghost use Rattle.std.specs.Prelude.{◌≡◌, ◌&&◌, ◌*◌, ◌≤◌, ◌<◌, length, drop, eqb, ltb};
ghost use Rattle.rules.specs.Edit.{opens};
ghost use Rattle.rows.specs.Shape.{row_no};
ghost use Rattle.scan_meet.specs.Meeting.{Rising, Passed, Sought, Finds};

use rows::shape::Row;
use scan_blanks::is_blank;
use scan_reader::Spot;

// The old rows that a walk may meet: so many, those before the first are passed, and what stood at x stands at x + least - b, from least on.
#[derive(Clone, Copy)]
pub struct Olds {
    pub count: usize,
    pub first: usize,
    pub least: u64,
    pub b: u32,
}

// Whether a gap goes on at an index: a blank, or the first two bytes of a comment.
// Stays a test and a read: `get` gives a byte with a pointer, and the module for browsers is made for pointers of another size.
fn gap_opens(text: &[u8], at: usize) -> bool
    requires { at < length text.now }
    ensures { result ≡ opens (drop at text.now) }
{
    let b = text[at];
    if b != b'/' {
        return is_blank(b);
    }
    if at + 1 == text.len() {
        return false;
    }
    let c = text[at + 1];
    (c == b'/') | (c == b'*')
}

// The first row from `row` on that starts at an offset or behind it.
fn seek(old: &[u32], count: usize, row: usize, target: u64) -> usize
    requires { (count * 8 ≤ length old.now) × (row ≤ count) }
    ensures { Sought old.now count row target result }
{
    for i in row..count {
        if target <= u64::from(Row::at(old, i).start) {
            return i;
        }
    }
    count
}

// Whether row i is there and starts at an offset.
fn starts(old: &[u32], count: usize, i: usize, target: u64) -> bool
    requires { count * 8 ≤ length old.now }
    ensures { result ≡ (ltb i count && eqb (row_no old.now i).start target) }
{
    i < count && u64::from(Row::at(old, i).start) == target
}

// The old rows up to a spot, of which `row` are passed: the row that meets there, or as an error how many are passed now.
pub fn find(old: &[u32], olds: Olds, row: usize, text: &[u8], here: Spot) -> Result<usize, usize>
    requires { ((olds.count * 8 ≤ length old.now) × (row ≤ olds.count))
        × (Rising old.now olds.count × Passed old.now olds.least olds.b row here.cursor.offset.0) }
    ensures { Finds old.now olds.count olds.least olds.b row here.cursor.offset.0
        (drop here.at text.now) result }
{
    let offset = u64::from(here.cursor.offset.0);
    if offset < olds.least || text.len() <= here.at {
        return Err(row);
    }
    let target = offset + u64::from(olds.b) - olds.least;
    let next = seek(old, olds.count, row, target);
    if gap_opens(text, here.at) || !starts(old, olds.count, next, target) {
        return Err(next);
    }
    Ok(next)
}
