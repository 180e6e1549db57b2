// What the programs that replay a stored sample share: its words and files, what calls tell as such words and leave in lent memory,
// counters, and lines of numbers.
#![tactic(auto)]

use reader::{Lost, Reader};
use std::alloc::Global;
use std::io;
use std::io::Read;
use tally::Tally;

pub mod file;
pub mod lines;
pub mod memory;
pub mod reader;
pub mod tally;
pub mod told;

// The most bytes of a sample.
pub const SAMPLE: u64 = 2000000;

// Why a replay stops: the sample cannot be read on, or what is written of it has nowhere to go.
#[derive(Debug, Drop)]
pub enum Stop {
    Lost,
    Output(io::Error),
}

impl From<Lost> for Stop {
    fn from(_lost: Lost) -> Stop {
        Stop::Lost
    }
}

impl From<io::Error> for Stop {
    fn from(error: io::Error) -> Stop {
        Stop::Output(error)
    }
}

// Standard input, as far as a sample may go.
pub fn sample(rt: &impl Input, alloc: Global) -> io::Result<Vec<u8>> {
    let mut sample = Vec::new(alloc);
    rt.reader().take(SAMPLE).read_to_end(&mut sample)?;
    Ok(sample)
}

// A sample's head says how many items it has; behind a heading the first of them stands.
#[derive(Clone, Copy)]
pub struct Heading<'a> {
    pub size: u64,
    pub items: Reader<'a>,
}

// The number of items of a sample of this name, whose version must be 1.
pub fn item_count(sample: &mut Reader<'_>, name: &[u8]) -> Result<u64, Lost> {
    sample.name(name)?;
    if sample.count()? != 1 {
        return Err(Lost);
    }
    sample.count()
}

// The head of a sample of this name; no items where it cannot be read.
pub fn head<'a>(sample: &'a [u8], name: &[u8]) -> Heading<'a> {
    let mut items = Reader::new(sample);
    let size = item_count(&mut items, name);
    if size.is_err() || items.part(b'H').is_err() {
        items = Reader::new(&[]);
    }
    Heading {
        size: size.unwrap_or(0),
        items,
    }
}

// Reads so many items of a sample, each by `read`, as far as it can be read. Of an item that it cannot read nothing is counted, and the
// sample stays in front of it.
pub fn items<'a, F: FnMut(&mut Reader<'a>, &mut Tally) -> Result<(), Stop>>(
    sample: &mut Reader<'a>,
    size: u64,
    tally: &mut Tally,
    mut read: F,
) -> Result<(), Stop>
    requires { F.IsAlwaysCallable read }
{
    for _ in 0..size {
        let mut behind = *sample;
        let mut counted = *tally;
        read(&mut behind, &mut counted)?;
        *sample = behind;
        *tally = counted;
    }
    Ok(())
}

// Reads the sample's next calls, as many as it says, each by `read`.
pub fn calls<'a, F: FnMut(&mut Reader<'a>, &mut Tally) -> Result<(), Stop>>(
    sample: &mut Reader<'a>,
    letter: u8,
    tally: &mut Tally,
    mut read: F,
) -> Result<(), Stop>
    requires { F.IsAlwaysCallable read }
{
    sample.letter(letter)?;
    for _ in 0..sample.count()? {
        read(sample, tally)?;
    }
    Ok(())
}

// What comes of a replay that stops: where the sample cannot be read on, what was counted so far is written.
pub fn ended(stopped: Result<(), Stop>) -> io::Result<()> {
    match stopped {
        Err(Stop::Output(error)) => Err(error),
        _ => Ok(()),
    }
}
