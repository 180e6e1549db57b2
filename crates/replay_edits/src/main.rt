// Holds the edit call against a stored sample of edits: reads the sample on standard input, scans each old text, asks where the window
// of its edit starts, makes the calls, and writes how many agree with what is expected in answer, rows and memory. How many comments
// stand before a row is expected as a fresh scan of the new text counts them, which the sample does not do. Where a call writes
// rows, its edit is made as a change too, of which the same is expected. `cargo run --release --offline --bin edits` in compare/ writes
// `stdin`, which says at its head where each expectation comes from.
#![tactic(auto)]

use call::{Lent, calls_compared, words_compared};
use change::{BYTES, WORDS};
use replay_input::memory::first;
use replay_input::reader::Reader;
use replay_input::tally::Tally;
use replay_input::told::table_of;
use replay_input::{Stop, lines};
use report::RESTARTS;
use rules::Table;
use std::io;

mod call;
mod change;
mod report;
mod words;

// The restart place of an edit at a against the sample's.
fn restart_compared(
    rt: &impl Print,
    sample: &mut Reader<'_>,
    tally: &mut Tally,
    old: &[u32; WORDS],
    table: Table,
    a: u32,
) -> Result<(), Stop> {
    let before = tally.differences;
    let mut theirs = [0u32; 6];
    sample.letter(b'S')?;
    sample.numbers(&mut theirs[..4])?;
    let ours = words::restart_words(edit::restart(old, table, a));
    words_compared(rt, tally, &ours, &theirs)?;
    let agrees = tally.differences == before;
    tally.held(RESTARTS, agrees);
    Ok(())
}

// The sample's next edit: its restart place and its calls.
fn edit_compared(rt: &impl Print, sample: &mut Reader<'_>, tally: &mut Tally) -> Result<(), Stop> {
    let mut old = [0u32; WORDS];
    let mut rows = [0u32; WORDS];
    let mut bytes = [0u8; BYTES];
    let before = sample.part(b'T')?;
    let table = table_of(scan::scan(before, &mut old));
    change::damaged(sample, &mut old)?;
    let edit = change::edit_read(sample)?;
    let size = change::edited(&mut bytes, before, edit, sample.part(b'N')?);
    let text = first(&bytes, size);
    let _ = scan::scan(text, &mut rows);
    tally.next_item();
    restart_compared(rt, sample, tally, &old, table, edit.a)?;
    change::rows_read(sample, &mut rows)?;
    let lent = Lent {
        old: &old,
        table,
        edit,
        text,
        rows: &rows,
    };
    calls_compared(rt, sample, tally, lent, &bytes)
}

// Runs the edits of a sample and writes what agreed.
fn replay(rt: &impl Print, sample: &[u8]) -> io::Result<()> {
    let head = replay_input::head(sample, b"spoonharbor-edits");
    let mut edits = head.items;
    let mut tally = Tally::new();
    replay_input::ended(replay_input::items(
        &mut edits,
        head.size,
        &mut tally,
        |sample, tally| edit_compared(rt, sample, tally),
    ))?;
    lines::two(rt, b"edits ", tally.item, b" of ", head.size)?;
    lines::one(rt, b"bytes behind the last edit ", edits.left())?;
    report::counts(rt, &tally)
}

// The counts of the sample on standard input.
fn main(rt: HostRuntime) -> io::Result<()> {
    let sample = replay_input::sample(&rt, rt.alloc())?;
    replay(&rt, &sample)
}
