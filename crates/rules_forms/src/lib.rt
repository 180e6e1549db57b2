// The plain data that the definitions and the code of both stored forms share: what a call with the text at hand tells, and the names of numbers.
ghost use Rattle.std.specs.Prelude.{◌≡◌};
ghost use Rattle.rules_forms.specs.declared.Apart.TheVariants.{File};

pub mod short;

use rules_files::Fault;

// The two forms: rows of eight words, or of six without line and column.
#[derive(Clone, Copy)]
pub enum Form {
    Full,
    Short,
}

// Why a file is not read beside a text, or not moved: what is wrong with the file itself, or 45, the text is another.
#[derive(Clone, Copy)]
pub enum Apart {
    File(Fault),
    OtherText,
}

// What is wrong with a file itself is told as it is.
impl From<Fault> for Apart {
    ghost from_gives = { λ why r. r ≡ File why };

    fn from(why: Fault) -> Apart {
        Apart::File(why)
    }
}
