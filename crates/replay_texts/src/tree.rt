// What a parse tells and writes, held against the sample's.
use crate::compared::{compared, judged, part};
use crate::report::{DECLARATIONS, NODES, PROGRAMS, REFUSALS, UNCOMPARED};
use refusals::{first_told, lexical_number, reason_number, second_told, syntax_number};
use replay_input::reader::{Lost, Reader};
use replay_input::tally::Tally;
use rules::{Parsed, Reason, Syntax, Table, node, node_kind};

// The nodes that a parse wrote, so many of them, and the next that is held against the sample.
#[derive(Clone, Copy)]
struct Nodes<'a> {
    words: &'a [u32],
    count: usize,
    next: usize,
}

// The number of a refused parse, its place, the two words that it tells, and that the place is known. Zeros where it is not refused.
fn refusal_words(parsed: Parsed) -> [u32; 7] {
    match parsed {
        Ok(_) => [0; 7],
        Err(e) => {
            let place = e.at;
            let (first, second) = match e.why {
                Reason::Syntax(x) => (first_told(x), second_told(x)),
                _ => (0, 0),
            };
            [
                reason_number(e.why),
                place.offset.0,
                place.line.0,
                place.column.0,
                first,
                second,
                1,
            ]
        }
    }
}

// How many nodes a parse gave; none where it is refused.
fn node_count(parsed: Parsed) -> usize {
    match parsed {
        Ok(n) => n as usize,
        Err(_) => 0,
    }
}

// Whether a node is a section's or a licence's, which the sample leaves out.
fn is_left_out(node: &[u32]) -> bool {
    node.first().is_some_and(|kind| matches!(*kind, node_kind::SECTION | node_kind::LICENSE))
}

impl<'a> Nodes<'a> {
    // Node i; no words where there are not as many.
    fn node(&self, i: usize) -> &'a [u32] {
        part(self.words, self.count, i)
    }

    // The next node that the sample does not leave out, which is passed then; no words where there is none.
    fn take_next(&mut self) -> &'a [u32] {
        for i in self.next..self.count {
            if !is_left_out(self.node(i)) {
                self.next = i + 1;
                return self.node(i);
            }
        }
        self.next = self.next.max(self.count);
        &[]
    }

    // Whether the next node is the program's and the last: at the last row, with so many declarations.
    fn ends(&self, rows: u32, size: u64) -> bool {
        let node = self.node(self.next);
        node.len() == node::WORDS
            && self.count.checked_sub(self.next) == Some(1)
            && node[node::KIND] == node_kind::PROGRAM
            && node[node::NAME] == node::MISSING
            && u64::from(node[node::PLACE]) + 1 == u64::from(rows)
            && u64::from(node[node::CHILDREN]) == size
    }
}

// The sample's next declaration against our next nodes.
fn declaration_compared(
    sample: &mut Reader<'_>,
    tally: &mut Tally,
    nodes: &mut Nodes<'_>,
) -> Result<(), Lost> {
    let before = tally.differences;
    sample.letter(b'D')?;
    for _ in 0..sample.count()? {
        compared(sample, tally, NODES, nodes.take_next(), node::WORDS)?;
    }
    let agrees = tally.differences == before;
    judged(tally, DECLARATIONS, agrees);
    Ok(())
}

// An accepted text: its declarations, then the program.
fn program_compared(
    sample: &mut Reader<'_>,
    tally: &mut Tally,
    mut nodes: Nodes<'_>,
    rows: u32,
) -> Result<(), Lost> {
    let size = sample.count()?;
    for _ in 0..size {
        declaration_compared(sample, tally, &mut nodes)?;
    }
    judged(tally, PROGRAMS, nodes.ends(rows, size));
    Ok(())
}

// A parse that the sample has no answer for: it is the table's refused ending, or the language alone says 27 or 32.
fn uncompared_agrees(table: Table, ours: [u32; 7]) -> bool {
    match table.ending {
        None => {
            ours[0] == syntax_number(Syntax::OutOfRange)
                || ours[0] == syntax_number(Syntax::TooDeep)
        }
        Some(e) => {
            ours[0] == lexical_number(e.why)
                && ours[1] == e.at.offset.0
                && ours[2] == e.at.line.0
                && ours[3] == e.at.column.0
        }
    }
}

// The sample's parse against ours.
pub fn parse_compared(
    sample: &mut Reader<'_>,
    tally: &mut Tally,
    text: &[u8],
    rows: &[u32],
    table: Table,
) -> Result<(), Lost> {
    let mut nodes = [0u32; 16000];
    let parsed = parse::parse(text, rows, table, &mut nodes);
    let ours = refusal_words(parsed);
    let written = Nodes {
        words: &nodes,
        count: node_count(parsed),
        next: 0,
    };
    sample.letter(b'P')?;
    match sample.count()? {
        0 => {
            judged(tally, UNCOMPARED, uncompared_agrees(table, ours));
            Ok(())
        }
        1 => compared(sample, tally, REFUSALS, &ours, 7),
        2 => program_compared(sample, tally, written, table.count),
        _ => Err(Lost),
    }
}
