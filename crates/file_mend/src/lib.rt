// A file mended in place: the text is read in the order of blocks, once to hold each block against what it should be,
// and once more, where one differs, to write.
ghost use Rattle.std.specs.Prelude.{◌≡◌, Ok};
ghost use Rattle.rules.specs.Text.{text_judged};
ghost use Rattle.rules_forms.specs.Shapes.{number_of};
ghost use Rattle.rules_mend.specs.Mend.{mend_told, mend_leaves, list_leaves};

use file_rewrite::mend_blocks;
use file_sizes::length_for;
use file_survey::survey;
use rules::{Cursor, Outer};
use rules_files::{Fault, form};
use rules_forms::{Form, short};
use rules_mend::{Mended, NotMended};
use scan_place::judge_text;

// A file of n bytes in lent memory, where the text is fine: 40, then 4, or it is mended.
fn mend_text(
    form: Form,
    text: &[u8],
    file: &mut [u8],
    n: usize,
    list: &mut [u32],
) -> Result<Mended, NotMended>
    requires { text_judged text.now ≡ Ok tt }
    ensures { (result ≡ mend_told text.now (number_of form) file.old n list.old)
        × ((file.new
        ≡ mend_leaves text.now (number_of form) file.old n list.old)
        × (list.new
        ≡ list_leaves text.now (number_of form) file.old n list.old)) }
{
    let room = file.len();
    let slots = list.len();
    let there = if room < n { room } else { n };
    let seen = survey(form, text, &file[..there]);
    let table = seen.table;
    if form::MOST_ROWS < table.count {
        return Err(NotMended {
            why: Fault::TooManyRows,
            at: Cursor::start(),
        });
    }
    let length = length_for(form, table.count);
    if (room < length) | (room < n) | (slots < seen.listed) {
        return Err(NotMended {
            why: Fault::Outer(Outer::NoRowRoom),
            at: Cursor::start(),
        });
    }
    if seen.listed == 0 {
        return Ok(Mended {
            bytes: length as u32,
            listed: 0,
        });
    }
    mend_blocks(form, text, table, file, n, list);
    Ok(Mended {
        bytes: length as u32,
        listed: seen.listed as u32,
    })
}

// A file of one of both forms: 1 and 2 of the text in front of that.
fn mend_in(
    form: Form,
    text: &[u8],
    file: &mut [u8],
    n: usize,
    list: &mut [u32],
) -> Result<Mended, NotMended>
    ensures { (result ≡ mend_told text.now (number_of form) file.old n list.old)
        × ((file.new
        ≡ mend_leaves text.now (number_of form) file.old n list.old)
        × (list.new
        ≡ list_leaves text.now (number_of form) file.old n list.old)) }
{
    match judge_text(text) {
        Err(e) => Err(NotMended {
            why: Fault::Outer(e.why),
            at: e.at,
        }),
        Ok(()) => mend_text(form, text, file, n, list),
    }
}

// Mend a file of n bytes, which stands in lent memory, in the form of a number: the file is what a fresh scan stores,
// and the blocks that differed are listed, or nothing is done and why.
pub fn mend(
    text: &[u8],
    number: u32,
    file: &mut [u8],
    n: usize,
    list: &mut [u32],
) -> Result<Mended, NotMended>
    ensures told { result ≡ mend_told text.now number file.old n list.old }
    ensures left { file.new ≡ mend_leaves text.now number file.old n list.old }
    ensures listed { list.new ≡ list_leaves text.now number file.old n list.old }
{
    if number == form::NUMBER {
        return mend_in(Form::Full, text, file, n, list);
    }
    if number == short::NUMBER {
        return mend_in(Form::Short, text, file, n, list);
    }
    Err(NotMended {
        why: Fault::OtherForm,
        at: Cursor::start(),
    })
}
