// What the calls over files tell, in eight words of one layout (specs/Layout.antt).
ghost use Rattle.std.specs.Prelude.{◌≡◌};
ghost use Rattle.rules_files.specs.Files.{fault_number, block_told};
ghost use Rattle.rules_forms.specs.Forms.{apart_number, apart_block};
ghost use Rattle.file_answers.specs.Layout.{fault_words, stored_words, loaded_words, apart_words, beside_words, moved_words, mended_words};

use answers::{no_place, put, put_told};
use refusals::outer_number;
use rules::{Cursor, Table};
use rules_files::{Fault, form};
use rules_forms::Apart;
use rules_mend::{Mended, NotMended};

// The bytes of a block, in a word.
const BLOCK: u32 = form::BLOCK as u32;

// The number of a refusal of a call over a file.
pub fn fault_number(why: Fault) -> u32
    ensures { result ≡ fault_number why }
{
    match why {
        Fault::Outer(x) => outer_number(x),
        Fault::TooManyRows => 40,
        Fault::BadBlock(_) => 41,
        Fault::WrongLength => 42,
        Fault::NoTable => 43,
        Fault::OtherForm => 44,
    }
}

// The block that a refusal tells.
pub fn block_told(why: Fault) -> u32
    ensures { result ≡ block_told why }
{
    match why {
        Fault::BadBlock(k) => k,
        Fault::Outer(_)
        | Fault::TooManyRows
        | Fault::WrongLength
        | Fault::NoTable
        | Fault::OtherForm => 0,
    }
}

// A refusal of a call over a file.
fn put_fault(answer: &mut [u32; 8], why: Fault)
    ensures { answer.new ≡ fault_words why }
{
    put(
        answer,
        fault_number(why),
        Cursor::start(),
        block_told(why),
        0,
        0,
        0,
    );
}

// What a writing tells.
pub fn put_stored(answer: &mut [u32; 8], told: Result<u32, Fault>)
    ensures { answer.new ≡ stored_words told }
{
    match told {
        Ok(n) => put(answer, 0, no_place(), 0, 0, n / BLOCK, n),
        Err(why) => put_fault(answer, why),
    }
}

// What a reading tells.
pub fn put_loaded(answer: &mut [u32; 8], told: Result<Table, Fault>)
    ensures { answer.new ≡ loaded_words told }
{
    match told {
        Ok(table) => put_told(answer, Ok(table)),
        Err(why) => put_fault(answer, why),
    }
}

// ---- with the text at hand

// The number of a refusal of a call that has the text.
pub fn apart_number(why: Apart) -> u32
    ensures { result ≡ apart_number why }
{
    match why {
        Apart::File(x) => fault_number(x),
        Apart::OtherText => 45,
    }
}

// The block that such a refusal tells.
pub fn apart_block(why: Apart) -> u32
    ensures { result ≡ apart_block why }
{
    match why {
        Apart::File(x) => block_told(x),
        Apart::OtherText => 0,
    }
}

// A refusal of a call that has the text.
fn put_apart(answer: &mut [u32; 8], why: Apart)
    ensures { answer.new ≡ apart_words why }
{
    put(
        answer,
        apart_number(why),
        Cursor::start(),
        apart_block(why),
        0,
        0,
        0,
    );
}

// What a reading beside the text tells.
pub fn put_beside(answer: &mut [u32; 8], told: Result<Table, Apart>)
    ensures { answer.new ≡ beside_words told }
{
    match told {
        Ok(table) => put_told(answer, Ok(table)),
        Err(why) => put_apart(answer, why),
    }
}

// What a move tells.
pub fn put_moved(answer: &mut [u32; 8], told: Result<u32, Apart>)
    ensures { answer.new ≡ moved_words told }
{
    match told {
        Ok(n) => put(answer, 0, no_place(), 0, 0, n / BLOCK, n),
        Err(why) => put_apart(answer, why),
    }
}

// What a mending tells.
pub fn put_mended(answer: &mut [u32; 8], told: Result<Mended, NotMended>)
    ensures { answer.new ≡ mended_words told }
{
    match told {
        Ok(done) => put(answer, 0, no_place(), 0, 0, done.listed, done.bytes),
        Err(refused) => put(answer, fault_number(refused.why), refused.at, 0, 0, 0, 0),
    }
}
