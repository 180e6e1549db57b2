// The calls over a text and a file: what each tells and leaves, held against what is expected.
use crate::answer::{WORDS, digest, joined};
use crate::report::{KINDS, NUMBERS};
use file_answers::{put_beside, put_mended, put_moved};
use file_beside::load_beside;
use file_mend::mend;
use file_move::move_file;
use replay_input::Stop;
use replay_input::file::{BYTES, ROW_WORDS};
use replay_input::memory::{UNTOUCHED, UNTOUCHED_BYTE, lent, put};
use replay_input::reader::Reader;
use replay_input::tally::{Tally, words_compared};

// A call's words: its kind, the form that is asked for, how many bytes or words are lent, and how many words for a list; then ten
// that are expected.
const CALL: usize = 14;

const KIND: usize = 0;

const FORM: usize = 1;

const ROOM: usize = 2;

const LIST: usize = 3;

const EXPECTED: usize = 4;

// The most words that are lent for a list of blocks.
const LIST_WORDS: usize = 16;

// The kinds of a call: a reading beside the text, a move; any other is a mending.
const LOAD: u32 = 0;

const MOVE: u32 = 1;

// What a reading beside the text tells and leaves.
fn loaded(text: &[u8], file: &[u8], rows: &mut [u32]) -> [u32; WORDS] {
    let mut told = [0u32; 8];
    put_beside(&mut told, load_beside(text, file, rows));
    joined(&told, digest(rows), 0)
}

// What a move tells and leaves.
fn moved(text: &[u8], file: &[u8], form: u32, memory: &mut [u8]) -> [u32; WORDS] {
    let mut told = [0u32; 8];
    put_moved(&mut told, move_file(text, file, form, memory));
    joined(&told, digest(memory), 0)
}

// What a mending of so many bytes tells and leaves.
fn mended(
    text: &[u8],
    form: u32,
    memory: &mut [u8],
    size: usize,
    list: &mut [u32],
) -> [u32; WORDS] {
    let mut told = [0u32; 8];
    put_mended(&mut told, mend(text, form, memory, size, list));
    joined(&told, digest(memory), digest(list))
}

// What a call tells and leaves, with the first bytes and words lent that it says.
fn told_by(text: &[u8], file: &[u8], call: &[u32; CALL]) -> [u32; WORDS] {
    let mut rows = [UNTOUCHED; ROW_WORDS];
    let mut list = [UNTOUCHED; LIST_WORDS];
    let mut memory = [UNTOUCHED_BYTE; BYTES];
    let form = call[FORM];
    let room = call[ROOM] as usize;
    if call[KIND] == LOAD {
        return loaded(text, file, lent(&mut rows, room));
    }
    if call[KIND] == MOVE {
        return moved(text, file, form, lent(&mut memory, room));
    }
    put(&mut memory, 0, file);
    let bytes = lent(&mut memory, room);
    mended(
        text,
        form,
        bytes,
        file.len(),
        lent(&mut list, call[LIST] as usize),
    )
}

// The sample's next call. One that differs is in no count.
pub fn call_compared(
    rt: &impl Print,
    sample: &mut Reader<'_>,
    tally: &mut Tally,
    text: &[u8],
    file: &[u8],
) -> Result<(), Stop> {
    let mut call = [0u32; CALL];
    sample.numbers(&mut call)?;
    let before = tally.differences;
    let ours = told_by(text, file, &call);
    tally.next_call();
    words_compared(rt, tally, b"case ", &ours, &call[EXPECTED..])?;
    if tally.differences == before {
        tally.held_among(0, call[EXPECTED], NUMBERS, true);
        tally.held_among(NUMBERS, call[KIND], KINDS, true);
    }
    Ok(())
}
