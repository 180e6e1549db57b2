// What a scan or an edit tells, as the words that a sample has of it.
use refusals::{lexical_number, outer_number};
use rules::{Cursor, Table, Told};

// The table that is told; one that no text has where the call is refused.
pub fn table_of(told: Told) -> Table {
    match told {
        Ok(table) => table,
        Err(e) => Table {
            count: e.rows,
            length: 0,
            ending: None,
        },
    }
}

// A refusal's number and place.
pub fn at_place(number: u32, place: Cursor) -> [u32; 4] {
    [number, place.offset.0, place.line.0, place.column.0]
}

// The number and place of what ended the reading, zeros where it is the text's end.
pub fn ending_words(told: Told) -> [u32; 4] {
    match told {
        Ok(table) => {
            let ending = table.ending;
            match ending {
                None => [0, 0, 0, 0],
                Some(e) => at_place(lexical_number(e.why), e.at),
            }
        }
        Err(e) => at_place(outer_number(e.why), e.at),
    }
}
