// What the calls tell, in eight words of one layout (specs/Layout.antt, include/spoonharbor.h), and the table that such words tell.
ghost use Rattle.std.specs.Prelude.{◌≡◌};
ghost use Rattle.answers.specs.Layout.{words, nowhere, syntax_words, told_words, outer_words, asked_words, restart_words, parsed_words, is_ending, length_of, ending_of, table_of};

use refusals::{
    first_told, is_lexical, lexical_number, lexical_of, outer_number, second_told, syntax_number,
};
use rules::{
    Column, Cursor, Ending, Halt, Line, Offset, Outer, Parsed, Reason, Syntax, Table, Told,
};

// ---- numbers

// Whether a number is that of an ending: 0, or a lexical refusal's.
#[tactic(auto, unfolding(crate::specs::Layout::is_ending))]
fn is_ending(number: u32) -> bool
    ensures { result ≡ is_ending number }
{
    number == 0 || is_lexical(number)
}

// ---- answers into eight words

// The place that stands beside number 0.
pub fn no_place() -> Cursor
    ensures { result ≡ nowhere }
{
    Cursor {
        offset: Offset(0),
        line: Line(0),
        column: Column(0),
    }
}

// An answer: a number, a place, two facts, a count and a length.
pub fn put(answer: &mut [u32; 8], number: u32, at: Cursor, x: u32, y: u32, count: u32, length: u32)
    ensures { answer.new ≡ words number at x y count length }
{
    *answer = [
        number,
        at.offset.0,
        at.line.0,
        at.column.0,
        x,
        y,
        count,
        length,
    ];
}

// A refusal of the call itself.
pub fn put_outer(answer: &mut [u32; 8], why: Outer)
    ensures { answer.new ≡ outer_words why }
{
    put(answer, outer_number(why), Cursor::start(), 0, 0, 0, 0);
}

// What a scan or an edit tells.
pub fn put_told(answer: &mut [u32; 8], told: Told)
    ensures { answer.new ≡ told_words told }
{
    match told {
        Ok(t) => {
            let ending = t.ending;
            match ending {
                None => {
                    put(answer, 0, no_place(), 0, 0, t.count, t.length);
                }
                Some(e) => {
                    put(answer, lexical_number(e.why), e.at, 0, 0, t.count, t.length);
                }
            }
        }
        Err(e) => {
            put(answer, outer_number(e.why), e.at, 0, 0, e.rows, 0);
        }
    }
}

// A refusal of the grammar or of a check, with what it tells and the kind that was found.
fn put_syntax(answer: &mut [u32; 8], why: Syntax, at: Cursor, found: u32)
    ensures { answer.new ≡ syntax_words why at found }
{
    put(
        answer,
        syntax_number(why),
        at,
        first_told(why),
        second_told(why),
        0,
        found,
    );
}

// What a parse tells.
pub fn put_parsed(answer: &mut [u32; 8], parsed: Parsed)
    ensures { answer.new ≡ parsed_words parsed }
{
    match parsed {
        Ok(n) => {
            put(answer, 0, no_place(), 0, 0, n, 0);
        }
        Err(e) => match e.why {
            Reason::Outer(x) => {
                put(answer, outer_number(x), e.at, 0, 0, 0, 0);
            }
            Reason::Lexical(x) => {
                put(answer, lexical_number(x), e.at, 0, 0, 0, 0);
            }
            Reason::Syntax(x) => {
                put_syntax(answer, x, e.at, e.found);
            }
        },
    }
}

// What a method set tells.
pub fn put_asked(answer: &mut [u32; 8], asked: Result<u32, Outer>)
    ensures { answer.new ≡ asked_words asked }
{
    match asked {
        Ok(n) => {
            put(answer, 0, no_place(), n, 0, 0, 0);
        }
        Err(why) => {
            put_outer(answer, why);
        }
    }
}

// Where a window must start, or why not.
pub fn put_restart(answer: &mut [u32; 8], told: Result<Cursor, Outer>)
    ensures { answer.new ≡ restart_words told }
{
    match told {
        Ok(p) => {
            put(answer, 0, p, 0, 0, 0, 0);
        }
        Err(why) => {
            put_outer(answer, why);
        }
    }
}

// The length that eight words tell, and one that no text has where their first is no ending.
#[tactic(auto, unfolding(crate::specs::Layout::length_of))]
fn length_of(told: &[u32; 8]) -> u32
    ensures { result ≡ length_of told.now }
{
    if is_ending(told[0]) {
        told[7]
    } else {
        u32::MAX
    }
}

// The ending that eight words tell. Where their first is none's, what is told here stands beside a length that no text has.
fn ending_of(told: &[u32; 8]) -> Ending
    ensures { result ≡ ending_of told.now }
{
    if told[0] == 0 {
        return None;
    }
    Some(Halt {
        why: lexical_of(told[0]),
        at: Cursor {
            offset: Offset(told[1]),
            line: Line(told[2]),
            column: Column(told[3]),
        },
    })
}

// The table that eight words tell.
pub fn table_of(told: &[u32; 8]) -> Table
    ensures { result ≡ table_of told.now }
{
    Table {
        count: told[6],
        length: length_of(told),
        ending: ending_of(told),
    }
}
