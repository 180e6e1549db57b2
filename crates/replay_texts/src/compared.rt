// Words of ours, held against the sample's.
use crate::report::UNSAID;
use replay_input::reader::{Lost, Reader};
use replay_input::tally::Tally;
use rules::row;

// One thing more that was held, and one difference more where it does not agree.
pub fn judged(tally: &mut Tally, what: usize, agrees: bool) {
    tally.held(what, agrees);
    if !agrees {
        tally.differs();
    }
}

// The next so many words of the sample against ours, as one thing; one that is not said agrees with any.
pub fn compared(
    sample: &mut Reader<'_>,
    tally: &mut Tally,
    what: usize,
    ours: &[u32],
    size: usize,
) -> Result<(), Lost> {
    let mut agrees = true;
    for i in 0..size {
        let our = ours.get(i).map(|word| u64::from(*word));
        match sample.word()? {
            Some(word) => agrees &= our == Some(word),
            None => {
                tally.many(UNSAID, 1, 1);
                agrees &= our.is_some();
            }
        }
    }
    judged(tally, what, agrees);
    Ok(())
}

// The eight words of row or node i of so many, or none.
pub fn part(list: &[u32], count: usize, i: usize) -> &[u32] {
    if i < count.min(list.len() / row::WORDS) {
        &list[i * row::WORDS..(i + 1) * row::WORDS]
    } else {
        &[]
    }
}
