// Holds the calls with the text at hand against a stored sample of texts and files: reads the sample on standard input, reads each file
// beside its text, moves it and mends it, and writes how many calls agree with what is expected in answer and lent memory.
// `cargo run --release --offline --bin forms` in compare/ writes `stdin`; compare/README.md says what stands in it.
#![tactic(auto)]

use calls::call_compared;
use replay_input::file::{BYTES, file_read};
use replay_input::memory::first;
use replay_input::reader::Reader;
use replay_input::tally::Tally;
use replay_input::{Stop, lines};
use std::io;

mod answer;
mod calls;
mod report;

// The sample's next text and file, with its calls.
fn case_compared(rt: &impl Print, sample: &mut Reader<'_>, tally: &mut Tally) -> Result<(), Stop> {
    let mut bytes = [0u8; BYTES];
    let text = sample.part(b'P')?;
    let size = file_read(sample, &mut bytes)?;
    let file = first(&bytes, size);
    tally.next_item();
    replay_input::calls(sample, b'C', tally, |sample, tally| {
        call_compared(rt, sample, tally, text, file)
    })
}

// Runs the cases of a sample and writes what agreed.
fn replay(rt: &impl Print, sample: &[u8]) -> io::Result<()> {
    let head = replay_input::head(sample, b"spoonharbor-forms");
    let mut cases = head.items;
    let mut tally = Tally::new();
    replay_input::ended(replay_input::items(
        &mut cases,
        head.size,
        &mut tally,
        |sample, tally| case_compared(rt, sample, tally),
    ))?;
    lines::two(rt, b"cases ", tally.item, b" of ", head.size)?;
    lines::one(rt, b"bytes behind the last case ", cases.left())?;
    report::counts(rt, &tally)
}

// The counts of the sample on standard input.
fn main(rt: HostRuntime) -> io::Result<()> {
    let sample = replay_input::sample(&rt, rt.alloc())?;
    replay(&rt, &sample)
}
