// The plain data that the definitions and the code of figures share: a tally, and why none is given.
#![tactic(auto)]

// Twenty counts of a program, or of several together: units of each of the eleven kinds, maps of each of the five types, events,
// statements, the sum of all max values, and the methods that each unit's kind allows, added up.
#[derive(Clone, Copy)]
pub struct Tally {
    pub units: [u64; 11],
    pub maps: [u64; 5],
    pub events: u64,
    pub statements: u64,
    pub max: u64,
    pub methods: u64,
}

// Why nodes have no tally, 3: they are too many, not all lent, or one is of no kind.
#[derive(Clone, Copy)]
pub struct NotNodes;

// Why two tallies are not joined, 70: a count of both together passes 64 bits. The first is given back as it was.
#[derive(Clone, Copy)]
pub struct CountTooLarge {
    pub first: Tally,
}
