// The sizes of both forms: the bytes of a row and of what block 0 says, how many rows stand in a block, and how long a file is.
ghost use Rattle.std.specs.Prelude.{◌≡◌, min};
ghost use Rattle.rules_files.specs.Blocks.{per_block, file_length};
ghost use Rattle.rules_forms.specs.Shapes.{number_of, row_bytes_of, said_bytes_of};

use rules_files::form;
use rules_forms::{Form, short};

// The number of a form.
pub fn number(form: Form) -> u32
    ensures { result ≡ number_of form }
{
    match form {
        Form::Full => form::NUMBER,
        Form::Short => short::NUMBER,
    }
}

// The bytes of a row.
pub fn row_bytes(form: Form) -> usize
    ensures { result ≡ row_bytes_of form }
{
    match form {
        Form::Full => form::ROW,
        Form::Short => short::ROW,
    }
}

// The bytes of what block 0 says.
pub fn said_bytes(form: Form) -> usize
    ensures { result ≡ said_bytes_of form }
{
    match form {
        Form::Full => form::SAID,
        Form::Short => short::SAID,
    }
}

// How many rows stand in a full block.
pub fn block_rows(form: Form) -> usize
    ensures { result ≡ per_block (row_bytes_of form) }
{
    match form {
        Form::Full => form::ROWS,
        Form::Short => short::ROWS,
    }
}

// How many of n rows stand in the next block.
pub fn rows_here(form: Form, n: usize) -> usize
    ensures { result ≡ min (per_block (row_bytes_of form)) n }
{
    let most = block_rows(form);
    if n < most { n } else { most }
}

// How long the file of n rows is.
pub fn length_for(form: Form, n: u32) -> usize
    ensures { result ≡ file_length (row_bytes_of form) n }
{
    let most = block_rows(form);
    form::BLOCK * (1 + (n as usize + (most - 1)) / most)
}
