// The plain data that the definitions and the code of mending share: what a mending tells.
use rules::Cursor;
use rules_files::Fault;

// So many bytes are the file now, and so many blocks are listed.
#[derive(Clone, Copy)]
pub struct Mended {
    pub bytes: u32,
    pub listed: u32,
}

// Why nothing is mended, and where.
#[derive(Clone, Copy)]
pub struct NotMended {
    pub why: Fault,
    pub at: Cursor,
}
