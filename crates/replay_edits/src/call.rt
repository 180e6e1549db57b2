// A call of the sample: the window and the memory that it is lent, what it tells and leaves, held against what is expected; and the same
// edit as a change, where rows are expected of it.
use crate::change::{Edit, WORDS};
use crate::report::{CALLS, CHANGES, KINDS, RESTARTS, ROWS};
use crate::words::told_words;
use replay_input::memory::{UNTOUCHED, first, first_changed, lent};
use replay_input::reader::{Lost, Reader};
use replay_input::tally::{Tally, difference};
use replay_input::{Stop, tally};
use rules::{Table, Told, row};
use std::io;

// The window is so many bytes from a start on, so many words are lent for rows; and the number, place, count and length that are
// expected.
#[derive(Clone, Copy)]
struct Call {
    start: u32,
    size: u32,
    words: u32,
    told: [u32; 6],
}

// An edit with what its calls are lent: the old table, and the new text with its rows.
#[derive(Clone, Copy)]
pub struct Lent<'a> {
    pub old: &'a [u32; WORDS],
    pub table: Table,
    pub edit: Edit,
    pub text: &'a [u8],
    pub rows: &'a [u32; WORDS],
}

// The next call.
fn call_read(sample: &mut Reader<'_>) -> Result<Call, Lost> {
    let start = sample.number()?;
    let size = sample.number()?;
    let words = sample.number()?;
    let mut told = [0u32; 6];
    sample.numbers(&mut told)?;
    Ok(Call {
        start,
        size,
        words,
        told,
    })
}

impl Call {
    // The bytes of its window; none where it does not lie in the text.
    fn window<'a>(&self, memory: &'a [u8]) -> &'a [u8] {
        let from = self.start as usize;
        memory.get(from..from + self.size as usize).unwrap_or(&[])
    }

    // Whether the call writes rows: all, those that have room, or those before a lexical refusal.
    fn writes(&self) -> bool {
        matches!(self.told[0], 0 | 4 | 11..)
    }
}

// Six words that were told against those that are expected: what differs is written. Call 0 of an edit is the question where its window
// starts.
pub fn words_compared(
    rt: &impl Print,
    tally: &mut Tally,
    ours: &[u32; 6],
    theirs: &[u32; 6],
) -> io::Result<()> {
    tally::words_compared(rt, tally, b"edit ", ours, theirs)
}

// What a call told and left against what is expected, its memory against so many rows and what was there: what differs is written.
fn answer_compared(
    rt: &impl Print,
    tally: &mut Tally,
    told: Told,
    memory: &[u32; WORDS],
    rows: &[u32; WORDS],
    theirs: &[u32; 6],
) -> io::Result<()> {
    words_compared(rt, tally, &told_words(told), theirs)?;
    let count = theirs[4];
    let written = first(rows, count as usize * row::WORDS);
    let changed = first_changed(memory, written, UNTOUCHED);
    if let Some((i, ours, theirs)) = changed {
        difference(rt, tally, b"edit ", b": word of memory ", i, ours, theirs)?;
    }
    tally.up_to(ROWS, count, changed.map(|(i, _, _)| i / row::WORDS));
    Ok(())
}

// The edit of a call as a change by the whole new text, where the call writes rows: the same is expected of it.
fn change_compared(
    rt: &impl Print,
    tally: &mut Tally,
    lent_to: Lent<'_>,
    call: &Call,
) -> io::Result<()> {
    if !call.writes() {
        return Ok(());
    }
    let before = tally.differences;
    let Lent {
        old,
        table,
        edit,
        text,
        rows,
    } = lent_to;
    let mut memory = [UNTOUCHED; WORDS];
    let told = edit_change::change(
        old,
        table,
        edit.a,
        edit.b,
        edit.n,
        text,
        lent(&mut memory, call.words as usize),
    );
    answer_compared(rt, tally, told, &memory, rows, &call.told)?;
    let agrees = tally.differences == before;
    tally.held(CHANGES, agrees);
    Ok(())
}

// The sample's next call, and its edit as a change. The window is of the whole memory that the new text has.
fn call_compared(
    rt: &impl Print,
    sample: &mut Reader<'_>,
    tally: &mut Tally,
    lent_to: Lent<'_>,
    bytes: &[u8],
) -> Result<(), Stop> {
    let call = call_read(sample)?;
    let before = tally.differences;
    let Lent {
        old,
        table,
        edit,
        text: _,
        rows,
    } = lent_to;
    let mut memory = [UNTOUCHED; WORDS];
    let told = edit::edit(
        old,
        table,
        edit.a,
        edit.b,
        edit.n,
        call.start,
        call.window(bytes),
        lent(&mut memory, call.words as usize),
    );
    tally.next_call();
    answer_compared(rt, tally, told, &memory, rows, &call.told)?;
    let agrees = tally.differences == before;
    tally.held(CALLS, agrees);
    tally.held_among(0, call.told[0], KINDS, agrees);
    tally.held_among(KINDS, edit.kind, RESTARTS - KINDS, agrees);
    change_compared(rt, tally, lent_to, &call)?;
    Ok(())
}

// The sample's calls of an edit.
pub fn calls_compared(
    rt: &impl Print,
    sample: &mut Reader<'_>,
    tally: &mut Tally,
    lent_to: Lent<'_>,
    bytes: &[u8],
) -> Result<(), Stop> {
    replay_input::calls(sample, b'C', tally, |sample, tally| {
        call_compared(rt, sample, tally, lent_to, bytes)
    })
}
