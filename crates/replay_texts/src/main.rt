// Holds the scanner and the parser against the stored answers of the Rust: reads the sample on standard input, scans and parses each
// of its texts, and writes how many things were held against it and how many agree. `stdin` is what
// `cargo run --release --offline --bin sample 4000 1` writes in compare/; compare/README.md says what stands in it.
#![tactic(auto)]

use replay_input::lines;
use replay_input::memory::first;
use replay_input::reader::{Lost, Reader};
use replay_input::tally::Tally;
use replay_input::told::table_of;
use std::io;
use text::{BYTES, text_read};

mod compared;
mod report;
mod table;
mod text;
mod tree;

// How many of the cases that differ are named.
const NAMED: usize = 8;

// What was counted of the cases that were read, and how many of them differ, with the numbers of the first few.
#[derive(Clone, Copy)]
struct Run {
    tally: Tally,
    differing: u64,
    first: [u64; NAMED],
}

impl Run {
    // Nothing is read yet.
    fn new() -> Run {
        Run {
            tally: Tally::new(),
            differing: 0,
            first: [0; NAMED],
        }
    }

    // One case more.
    fn add(&mut self, tally: Tally) {
        if tally.differences != self.tally.differences {
            if let Some(named) = self.first.get_mut(self.differing as usize) {
                *named = tally.item;
            }
            self.differing = self.differing.saturating_add(1);
        }
        self.tally = tally;
    }
}

// The sample's next case: a text against the sample's answers for it.
fn case_compared(sample: &mut Reader<'_>, tally: &mut Tally) -> Result<(), Lost> {
    let mut bytes = [0u8; BYTES];
    let size = text_read(sample, &mut bytes)?;
    let text = first(&bytes, size);
    tally.next_item();
    let mut rows = [0u32; 16000];
    let told = scan::scan(text, &mut rows);
    table::table_compared(sample, tally, &rows, told)?;
    tree::parse_compared(sample, tally, text, &rows, table_of(told))
}

// So many cases, if the sample says how many.
fn cases(sample: &mut Reader<'_>, run: &mut Run, size: Result<u64, Lost>) -> Result<(), Lost> {
    for _ in 0..size? {
        let mut tally = run.tally;
        case_compared(sample, &mut tally)?;
        run.add(tally);
    }
    Ok(())
}

// Runs the cases of a sample and writes what agreed. Of a sample that cannot be read on no bytes are left.
fn replay(rt: &impl Print, mut sample: Reader<'_>) -> io::Result<()> {
    let mut run = Run::new();
    let size = replay_input::item_count(&mut sample, b"spoonharbor-sample");
    let left = match cases(&mut sample, &mut run, size) {
        Ok(()) => sample.left(),
        Err(Lost) => 0,
    };
    lines::two(rt, b"cases ", run.tally.item, b" of ", size.unwrap_or(0))?;
    lines::one(rt, b"bytes behind the last case ", left)?;
    report::counts(rt, &run.tally)?;
    lines::one(rt, b"differing cases ", run.differing)?;
    for case in run.first.iter().take(run.differing as usize) {
        lines::one(rt, b"differing case ", *case)?;
    }
    Ok(())
}

// Replays the sample on standard input.
fn main(rt: HostRuntime) -> io::Result<()> {
    let sample = replay_input::sample(&rt, rt.alloc())?;
    replay(&rt, Reader::new(&sample))
}
