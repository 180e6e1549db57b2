// The plain data that the definitions and the code of stored tables share: what a call over a file tells, and the names of numbers.
pub mod form;

use rules::Outer;

// Why a table is not stored, or a file not read: 3 or 4, 40 to 44. A bad block has its number.
#[derive(Clone, Copy)]
pub enum Fault {
    Outer(Outer),
    TooManyRows,
    BadBlock(u32),
    WrongLength,
    NoTable,
    OtherForm,
}
