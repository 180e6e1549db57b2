// The calls over a text: what each tells and leaves, held against what is expected.
use crate::report::{FORGED, NUMBERS};
use layout_answers::put_laid;
use layout_judge::SCRATCH;
use replay_input::Stop;
use replay_input::memory::{UNTOUCHED_BYTE, first, first_changed, lent};
use replay_input::reader::Reader;
use replay_input::tally::{Tally, difference, words_compared};
use replay_input::told::table_of;
use rules::{Parsed, Table};
use std::io;

// A call's words: what is changed, at which place, to what, how many bytes are lent; then the number and the length that are expected.
const CALL: usize = 6;

const WHAT: usize = 0;

const PLACE: usize = 1;

const WORD: usize = 2;

const ROOM: usize = 3;

const EXPECTED: usize = 4;

const LENGTH: usize = 5;

// What is changed: a word of the rows, a word of the nodes, or the node count.
const ROW: u32 = 1;

const NODE: u32 = 2;

const COUNT: u32 = 3;

// The most bytes of a room, and the most words of rows and of nodes.
const BYTES: usize = 4096;

const WORDS: usize = 8192;

// One of the words is another, if that is what is changed.
fn changed(words: &mut [u32; WORDS], call: &[u32; CALL], what: u32) {
    if call[WHAT] != what {
        return;
    }
    if let Some(word) = words.get_mut(call[PLACE] as usize) {
        *word = call[WORD];
    }
}

// How many nodes are lent: those of the parse, none where it is refused, or another number, if that is what is changed.
fn counted(parsed: Parsed, call: &[u32; CALL]) -> u32 {
    if call[WHAT] == COUNT {
        return call[WORD];
    }
    match parsed {
        Ok(n) => n,
        Err(_) => 0,
    }
}

// What a call tells of these rows and nodes, in eight words.
fn laid(
    text: &[u8],
    rows: &[u32; WORDS],
    table: Table,
    nodes: &[u32; WORDS],
    count: u32,
    scratch: &mut [u32; SCRATCH],
    room: &mut [u8],
) -> [u32; 8] {
    let mut told = [0u32; 8];
    put_laid(
        &mut told,
        layout::lay_out(text, rows, table, nodes, count, scratch, room),
    );
    told
}

// What a call tells of a text's rows and nodes, one word of them changed or none.
fn told_by(
    text: &[u8],
    call: &[u32; CALL],
    scratch: &mut [u32; SCRATCH],
    room: &mut [u8],
) -> [u32; 8] {
    let mut rows = [0u32; WORDS];
    let mut nodes = [0u32; WORDS];
    let table = table_of(scan::scan(text, &mut rows));
    let parsed = parse::parse(text, &rows, table, &mut nodes);
    changed(&mut rows, call, ROW);
    changed(&mut nodes, call, NODE);
    laid(
        text,
        &rows,
        table,
        &nodes,
        counted(parsed, call),
        scratch,
        room,
    )
}

// The eight words that are expected: beside a refusal its place, the text's start.
fn expected_words(call: &[u32; CALL]) -> [u32; 8] {
    let number = call[EXPECTED];
    if number == 0 {
        return [0, 0, 0, 0, 0, 0, 0, call[LENGTH]];
    }
    [number, 0, 1, 1, 0, 0, 0, 0]
}

// Memory behind a call against so many bytes of a layout and what was there: what differs is written.
fn memory_compared(
    rt: &impl Print,
    tally: &mut Tally,
    memory: &[u8; BYTES],
    layout: &[u8],
    size: usize,
) -> io::Result<()> {
    let written = first(layout, size);
    if let Some((i, ours, theirs)) = first_changed(memory, written, UNTOUCHED_BYTE) {
        difference(
            rt,
            tally,
            b"case ",
            b": byte ",
            i,
            u32::from(ours),
            u32::from(theirs),
        )?;
        tally.differs();
    }
    Ok(())
}

// The sample's next call.
pub fn call_compared(
    rt: &impl Print,
    sample: &mut Reader<'_>,
    tally: &mut Tally,
    text: &[u8],
    layout: &[u8],
    scratch: &mut [u32; SCRATCH],
) -> Result<(), Stop> {
    let mut call = [0u32; CALL];
    sample.numbers(&mut call)?;
    let before = tally.differences;
    let mut memory = [UNTOUCHED_BYTE; BYTES];
    let room = lent(&mut memory, call[ROOM] as usize);
    let ours = told_by(text, &call, scratch, room);
    tally.next_call();
    words_compared(rt, tally, b"case ", &ours, &expected_words(&call))?;
    memory_compared(rt, tally, &memory, layout, call[LENGTH] as usize)?;
    let agrees = tally.differences == before;
    tally.held_among(0, call[EXPECTED], NUMBERS, agrees);
    tally.held_among(NUMBERS, call[WHAT], FORGED, agrees);
    Ok(())
}
