// Holds the calls over files against a stored sample of tables: reads the sample on standard input, stores each table and reads files
// that came of it, sound and damaged, and writes how many agree with what is expected in answer, bytes, rows and memory.
// `cargo run --release --offline --bin files` in compare/ writes `stdin`; compare/README.md says what stands in it.
#![tactic(auto)]

use load::loads_compared;
use replay_input::file::{BYTES, ROW_WORDS, file_read};
use replay_input::memory::first;
use replay_input::reader::Reader;
use replay_input::tally::Tally;
use replay_input::{Stop, lines};
use std::io;
use store::stores_compared;
use table::rows_read;

mod load;
mod report;
mod store;
mod table;

// The sample's next table, with its stores and loads.
fn table_compared(rt: &impl Print, sample: &mut Reader<'_>, tally: &mut Tally) -> Result<(), Stop> {
    let mut table = [0u32; 8];
    let mut rows = [0u32; ROW_WORDS];
    let mut file = [0u8; BYTES];
    sample.letter(b'T')?;
    sample.numbers(&mut table)?;
    let size = rows_read(sample, &mut rows)?;
    file_read(sample, &mut file)?;
    tally.next_item();
    stores_compared(rt, sample, tally, &table, first(&rows, size), &file)?;
    loads_compared(rt, sample, tally, &rows, &file)
}

// Runs the tables of a sample and writes what agreed.
fn replay(rt: &impl Print, sample: &[u8]) -> io::Result<()> {
    let head = replay_input::head(sample, b"spoonharbor-files");
    let mut tables = head.items;
    let mut tally = Tally::new();
    replay_input::ended(replay_input::items(
        &mut tables,
        head.size,
        &mut tally,
        |sample, tally| table_compared(rt, sample, tally),
    ))?;
    lines::two(rt, b"tables ", tally.item, b" of ", head.size)?;
    lines::one(rt, b"bytes behind the last table ", tables.left())?;
    report::counts(rt, &tally)
}

// The counts of the sample on standard input.
fn main(rt: HostRuntime) -> io::Result<()> {
    let sample = replay_input::sample(&rt, rt.alloc())?;
    replay(&rt, &sample)
}
