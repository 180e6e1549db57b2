// What a parse of a text alone tells in enough room, without any node memory.
#![tactic(auto)]

ghost use Rattle.std.specs.Prelude.{◌≡◌};
ghost use Rattle.rules.specs.Calls.{out_told};
ghost use Rattle.parse.specs.Program.{AsksEnded, reading_of};
ghost use Rattle.program_alone.specs.Told.{alone_of, alone_told};

use rows::shape::Row;
use rules::{Reason, Table, Unparsed};

// What is read of a sound table with no refused ending.
fn pass(text: &[u8], rows: &[u32], count: u32) -> Result<(), Unparsed>
    requires { AsksEnded text.now rows.now count }
    ensures { result ≡ alone_of (out_told rows.now (reading_of text.now rows.now count)) }
{
    let mut none: [u32; 1] = [0];
    match parse::program_passed(text, rows, count, &mut none[..0]) {
        Ok(_) => Ok(()),
        Err(e) => {
            let row = Row::at(rows, e.row as usize);
            let found = refusals::found_told(e.why, row.kind);
            Err(Unparsed {
                why: Reason::Syntax(e.why),
                at: row.place(),
                found,
            })
        }
    }
}

// What a parse of a text alone tells.
pub fn read(text: &[u8], rows: &[u32], table: Table) -> Result<(), Unparsed>
    ensures { result ≡ alone_told text.now rows.now table }
{
    rows::judge(text, rows, table)?;
    match table.ending {
        Some(e) => Err(Unparsed {
            why: Reason::Lexical(e.why),
            at: e.at,
            found: 0,
        }),
        None => pass(text, rows, table.count),
    }
}
