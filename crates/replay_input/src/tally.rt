// What was counted of a sample, and what is written of it.
use crate::lines::{told, two};
use std::io;

// How many counters there are.
pub const COUNTERS: usize = 56;

// How many differences are written; the others are only counted.
const WRITTEN: u64 = 20;

// Of one thing, how many were held against the sample and how many agree.
#[derive(Clone, Copy)]
pub struct Counter {
    pub seen: u64,
    pub agreed: u64,
}

impl Counter {
    // So many more, of which so many agree.
    fn add(&mut self, seen: u64, agreed: u64) {
        self.seen = plus(self.seen, seen);
        self.agreed = plus(self.agreed, agreed);
    }
}

// The edit, table or case of the sample that is read, and the call of that; for each thing that is counted its counter; how many
// differences there are.
#[derive(Clone, Copy)]
pub struct Tally {
    pub item: u64,
    pub call: u64,
    pub counters: [Counter; COUNTERS],
    pub differences: u64,
}

impl Tally {
    // Nothing is read and counted.
    pub fn new() -> Tally {
        Tally {
            item: 0,
            call: 0,
            counters: [Counter { seen: 0, agreed: 0 }; COUNTERS],
            differences: 0,
        }
    }

    // The next item; no call of it is read.
    pub fn next_item(&mut self) {
        self.item = self.item.saturating_add(1);
        self.call = 0;
    }

    // The next call of the item.
    pub fn next_call(&mut self) {
        self.call = self.call.saturating_add(1);
    }

    // One difference more.
    pub fn differs(&mut self) {
        self.differences = self.differences.saturating_add(1);
    }

    // One thing more that was held.
    pub fn held(&mut self, what: usize, agrees: bool) {
        if let Some(counter) = self.counters.get_mut(what) {
            counter.seen = counter.seen.saturating_add(1);
            if agrees {
                counter.agreed = counter.agreed.saturating_add(1);
            }
        }
    }

    // One thing more that was held, of number n of so many whose counters stand from a first on; none where it is another.
    pub fn held_among(&mut self, first: usize, n: u32, most: usize, agrees: bool) {
        let k = n as usize;
        if k < most {
            self.held(first.saturating_add(k), agrees);
        }
    }

    // So many of a thing more, of which so many agree.
    pub fn many(&mut self, what: usize, seen: u64, agreed: u64) {
        if let Some(counter) = self.counters.get_mut(what) {
            counter.add(seen, agreed);
        }
    }

    // So many of a thing more, of which all agree; or where one differs, those before it.
    pub fn up_to(&mut self, what: usize, count: u32, differs: Option<usize>) {
        let all = u64::from(count);
        let same = differs.map_or(all, |before| all.min(before as u64));
        self.many(what, all, same);
        if differs.is_some() {
            self.differs();
        }
    }
}

// So many more, as far as that goes.
fn plus(n: u64, count: u64) -> u64 {
    if n < 4294967296 && count < 4294967296 {
        n + count
    } else {
        n
    }
}

// How many of a thing were held against the sample, and how many agree.
pub fn line(rt: &impl Print, name: &[u8], tally: &Tally, what: usize) -> io::Result<()> {
    if let Some(counter) = tally.counters.get(what) {
        two(rt, name, counter.seen, b", agreed ", counter.agreed)?;
    }
    Ok(())
}

// The calls by the number that is expected of them, from a first one on; nothing of those that there are none of.
pub fn numbers(rt: &impl Print, tally: &Tally, first: usize, most: usize) -> io::Result<()> {
    for i in first..most {
        let seen = tally.counters.get(i).map_or(0, |counter| counter.seen);
        if 0 < seen {
            told(rt, b"expected ", i as u64)?;
            line(rt, b": ", tally, i)?;
        }
    }
    Ok(())
}

// Part i of what a call of the item told or left is one number, and another is expected.
pub fn difference(
    rt: &impl Print,
    tally: &Tally,
    item: &[u8],
    part: &[u8],
    i: usize,
    ours: u32,
    theirs: u32,
) -> io::Result<()> {
    if tally.differences < WRITTEN {
        told(rt, item, tally.item)?;
        told(rt, b", call ", tally.call)?;
        told(rt, part, i as u64)?;
        two(
            rt,
            b" is ",
            u64::from(ours),
            b", expected ",
            u64::from(theirs),
        )?;
    }
    Ok(())
}

// Words that a call told against as many that are expected: what differs first is written.
pub fn words_compared(
    rt: &impl Print,
    tally: &mut Tally,
    item: &[u8],
    ours: &[u32],
    theirs: &[u32],
) -> io::Result<()> {
    for (i, (our, their)) in ours.iter().zip(theirs).enumerate() {
        if our != their {
            difference(rt, tally, item, b": word ", i, *our, *their)?;
            tally.differs();
            return Ok(());
        }
    }
    Ok(())
}
