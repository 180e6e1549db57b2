// What the calls tell, as the six words that the sample expects of them: number, offset, line, column, row count, text length.
use refusals::outer_number;
use replay_input::told::{at_place, ending_words, table_of};
use rules::{Cursor, Outer, Told};

// A number and a place, a count and a length.
fn joined(at: [u32; 4], count: u32, length: u32) -> [u32; 6] {
    [at[0], at[1], at[2], at[3], count, length]
}

// What an edit tells.
pub fn told_words(told: Told) -> [u32; 6] {
    let table = table_of(told);
    joined(ending_words(told), table.count, table.length)
}

// Where a window starts; there is no count and no length.
pub fn restart_words(restart: Result<Cursor, Outer>) -> [u32; 6] {
    match restart {
        Ok(place) => joined(at_place(0, place), 0, 0),
        Err(why) => joined(at_place(outer_number(why), Cursor::start()), 0, 0),
    }
}
