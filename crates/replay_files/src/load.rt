// Reading a file that came of the sample's table, sound or damaged: what the call tells and leaves, held against what is expected.
use crate::report::{DAMAGES, LOADS, ROWS, STORES, words_compared};
use crate::table::{COUNT, NUMBER};
use file_answers::put_loaded;
use file_load::load;
use replay_input::Stop;
use replay_input::file::{BYTES, ROW_WORDS, changed};
use replay_input::memory::{UNTOUCHED, first, first_changed, lent};
use replay_input::reader::{Lost, Reader};
use replay_input::tally::{Tally, difference};
use rules::row;
use std::io;

// How many damages there are.
const KINDS: usize = STORES - DAMAGES;

// What happened to the file; so many of its bytes are lent, and so many words for rows.
#[derive(Clone, Copy)]
struct Call {
    damage: u32,
    size: usize,
    words: usize,
}

// The next call.
fn call_read(sample: &mut Reader<'_>) -> Result<Call, Lost> {
    Ok(Call {
        damage: sample.number()?,
        size: sample.bounded(BYTES)?,
        words: sample.bounded(ROW_WORDS)?,
    })
}

// Memory behind a call against so many rows and what was there: what differs is written.
fn memory_compared(
    rt: &impl Print,
    tally: &mut Tally,
    memory: &[u32; ROW_WORDS],
    rows: &[u32; ROW_WORDS],
    count: u32,
) -> io::Result<()> {
    let written = first(rows, count as usize * row::WORDS);
    let changed = first_changed(memory, written, UNTOUCHED);
    if let Some((i, ours, theirs)) = changed {
        difference(rt, tally, b"table ", b": row word ", i, ours, theirs)?;
    }
    tally.up_to(ROWS, count, changed.map(|(i, _, _)| i / row::WORDS));
    Ok(())
}

// The sample's next load.
fn load_compared(
    rt: &impl Print,
    sample: &mut Reader<'_>,
    tally: &mut Tally,
    rows: &[u32; ROW_WORDS],
    file: &[u8; BYTES],
) -> Result<(), Stop> {
    let call = call_read(sample)?;
    let mut bytes = *file;
    let mut theirs = [0u32; 8];
    changed(sample, &mut bytes)?;
    sample.numbers(&mut theirs)?;
    let before = tally.differences;
    let mut memory = [UNTOUCHED; ROW_WORDS];
    let mut ours = [0u32; 8];
    let told = load(first(&bytes, call.size), lent(&mut memory, call.words));
    put_loaded(&mut ours, told);
    tally.next_call();
    words_compared(rt, tally, &ours, &theirs)?;
    memory_compared(rt, tally, &memory, rows, theirs[COUNT])?;
    let agrees = tally.differences == before;
    tally.held(LOADS, agrees);
    tally.held_among(0, theirs[NUMBER], DAMAGES, agrees);
    tally.held_among(DAMAGES, call.damage, KINDS, agrees);
    Ok(())
}

// The sample's loads of a table.
pub fn loads_compared(
    rt: &impl Print,
    sample: &mut Reader<'_>,
    tally: &mut Tally,
    rows: &[u32; ROW_WORDS],
    file: &[u8; BYTES],
) -> Result<(), Stop> {
    replay_input::calls(sample, b'L', tally, |sample, tally| {
        load_compared(rt, sample, tally, rows, file)
    })
}
