// The second reading of a mending: the rows of a text, a block at a time, each of which is written and listed where it
// differs.
ghost use Rattle.std.specs.Prelude.{◌≡◌, ◌≤◌, length, take, Ok};
ghost use Rattle.rules.specs.Text.{text_judged};
ghost use Rattle.rules_forms.specs.Shapes.{number_of};
ghost use Rattle.scan_part.specs.Part.{Begun};
ghost use Rattle.rules_mend.specs.Mend.{fresh_table, fresh_file, listed};
ghost use Rattle.file_rewrite.specs.Mending.{PartFits, PartMended, Fresh, RowsMended, file_left, list_left};

use file_parts::put_said;
use file_patch::mend_block;
use file_sizes::length_for;
use file_survey::{Step, begin, fresh_part};
use rules::Table;
use rules_files::form;
use rules_forms::Form;
use scan_part::Next;
use scan_reader::Spot;

// The next rows of a text mended as block k, behind so many entries of the list.
fn mend_part(
    form: Form,
    text: &[u8],
    spot: Spot,
    k: u32,
    file: &mut [u8],
    n: usize,
    list: &mut [u32],
    listed: usize,
) -> Step
    requires { Begun text.now spot × PartFits form text.now spot.at k n file.old listed list.old }
    ensures { PartMended form text.now spot.at k n listed result file.old file.new
        list.old list.new }
{
    let mut fresh = [0u8; form::BLOCK];
    let part = fresh_part(form, text, spot, k, &mut fresh);
    if part.count == 0 {
        return Step { part, listed };
    }
    Step {
        part,
        listed: mend_block(file, n, k, &fresh, list, listed),
    }
}

// The blocks of a text's rows, behind so many entries of the list: each that differs is written and listed. How many
// entries there are then is told.
fn mend_rows(
    form: Form,
    text: &[u8],
    file: &mut [u8],
    n: usize,
    list: &mut [u32],
    first: usize,
) -> usize
    requires { Fresh form text.now n file.old first list.old }
    ensures { RowsMended form text.now n first result file.old file.new list.old
        list.new }
{
    let mut spot = begin();
    let mut listed = first;
    let mut k: u32 = 1;
    // Stays a loop: each turn reads on from where the part before it ended, and the part says whether it is the last; a
    // for has neither.
    loop {
        let step = mend_part(form, text, spot, k, file, n, list, listed);
        let part = step.part;
        let next = part.next;
        listed = step.listed;
        match next {
            Next::On(at) => {
                spot = at;
            }
            Next::Over(_) => {
                return listed;
            }
        }
        k += 1;
    }
}

// The fresh file over n bytes of lent memory, and the list of what differed, where there is room for both.
pub fn mend_blocks(
    form: Form,
    text: &[u8],
    table: Table,
    file: &mut [u8],
    n: usize,
    list: &mut [u32],
)
    requires { ((text_judged text.now ≡ Ok tt) × (table ≡ fresh_table text.now))
        × (((length (fresh_file (number_of form) text.now) ≤ length file.old) × (n ≤ length file.old))
        × (length (listed (fresh_file (number_of form) text.now) (take n file.old)) ≤ length list.old)) }
    ensures { (file.new ≡ file_left form text.now file.old)
        × (list.new ≡ list_left form text.now n file.old list.old) }
{
    let mut fresh = [0u8; form::BLOCK];
    put_said(form, &mut fresh, table);
    let first = mend_block(file, n, 0, &fresh, list, 0);
    let last = mend_rows(form, text, file, n, list, first);
    let length = length_for(form, table.count);
    if length < n {
        list[last] = (length / form::BLOCK) as u32;
    }
}
