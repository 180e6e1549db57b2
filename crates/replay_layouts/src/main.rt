// Holds layouts against a stored sample: reads the sample on standard input, scans, parses and lays out each of its texts, with what is
// lent as it is and forged, and writes how many calls agree with what is expected in answer and lent room. `cargo run --release --offline
// --bin layouts` in compare/ writes `stdin`; compare/README.md says what stands in it.
#![tactic(auto)]

use calls::call_compared;
use layout_judge::SCRATCH;
use replay_input::reader::Reader;
use replay_input::tally::Tally;
use replay_input::{Stop, lines};
use std::io;

mod calls;
mod report;

// The sample's next text and layout, with its calls.
fn case_compared(
    rt: &impl Print,
    sample: &mut Reader<'_>,
    tally: &mut Tally,
    scratch: &mut [u32; SCRATCH],
) -> Result<(), Stop> {
    let text = sample.part(b'T')?;
    let layout = sample.part(b'L')?;
    tally.next_item();
    replay_input::calls(sample, b'C', tally, |sample, tally| {
        call_compared(rt, sample, tally, text, layout, scratch)
    })
}

// Runs the cases of a sample and writes what agreed.
fn replay(rt: &impl Print, sample: &[u8], scratch: &mut [u32; SCRATCH]) -> io::Result<()> {
    let head = replay_input::head(sample, b"spoonharbor-layouts");
    let mut cases = head.items;
    let mut tally = Tally::new();
    replay_input::ended(replay_input::items(
        &mut cases,
        head.size,
        &mut tally,
        |sample, tally| case_compared(rt, sample, tally, scratch),
    ))?;
    lines::two(rt, b"cases ", tally.item, b" of ", head.size)?;
    lines::one(rt, b"bytes behind the last case ", cases.left())?;
    report::counts(rt, &tally)
}

// The counts of the sample on standard input.
fn main(rt: HostRuntime) -> io::Result<()> {
    let mut scratch = [0u32; SCRATCH];
    let sample = replay_input::sample(&rt, rt.alloc())?;
    replay(&rt, &sample, &mut scratch)
}
