// Storing a table of the sample: what the call tells and leaves, held against what is expected.
use crate::report::{BLOCKS, DAMAGES, STORES, words_compared};
use crate::table::{COUNT, NUMBER};
use answers::table_of;
use file_answers::put_stored;
use file_store::store;
use replay_input::Stop;
use replay_input::file::BYTES;
use replay_input::memory::{UNTOUCHED_BYTE, first, first_changed, lent};
use replay_input::reader::Reader;
use replay_input::tally::{Tally, difference};
use rules_files::form;
use std::io;

// Memory behind a call against so many blocks of a file and what was there: what differs is written.
fn memory_compared(
    rt: &impl Print,
    tally: &mut Tally,
    memory: &[u8; BYTES],
    file: &[u8; BYTES],
    blocks: u32,
) -> io::Result<()> {
    let written = first(file, blocks as usize * form::BLOCK);
    let changed = first_changed(memory, written, UNTOUCHED_BYTE);
    if let Some((i, ours, theirs)) = changed {
        difference(
            rt,
            tally,
            b"table ",
            b": byte ",
            i,
            u32::from(ours),
            u32::from(theirs),
        )?;
    }
    tally.up_to(BLOCKS, blocks, changed.map(|(i, _, _)| i / form::BLOCK));
    Ok(())
}

// The sample's next store of a table.
fn store_compared(
    rt: &impl Print,
    sample: &mut Reader<'_>,
    tally: &mut Tally,
    table: &[u32; 8],
    rows: &[u32],
    file: &[u8; BYTES],
) -> Result<(), Stop> {
    let room = sample.bounded(BYTES)?;
    let mut theirs = [0u32; 8];
    sample.numbers(&mut theirs)?;
    let before = tally.differences;
    let mut memory = [UNTOUCHED_BYTE; BYTES];
    let mut ours = [0u32; 8];
    let told = store(rows, table_of(table), lent(&mut memory, room));
    put_stored(&mut ours, told);
    tally.next_call();
    words_compared(rt, tally, &ours, &theirs)?;
    memory_compared(rt, tally, &memory, file, theirs[COUNT])?;
    let agrees = tally.differences == before;
    tally.held(STORES, agrees);
    tally.held_among(0, theirs[NUMBER], DAMAGES, agrees);
    Ok(())
}

// The sample's stores of a table.
pub fn stores_compared(
    rt: &impl Print,
    sample: &mut Reader<'_>,
    tally: &mut Tally,
    table: &[u32; 8],
    rows: &[u32],
    file: &[u8; BYTES],
) -> Result<(), Stop> {
    replay_input::calls(sample, b'S', tally, |sample, tally| {
        store_compared(rt, sample, tally, table, rows, file)
    })
}
