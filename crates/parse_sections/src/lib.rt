// The kind of a unit: that of its first section.
#![tactic(auto)]

ghost use Rattle.std.specs.Prelude.{◌≡◌, ◌+◌, ◌-◌, ◌≤◌, length, take, drop};
ghost use Rattle.std.specs.Option.{unwrap_or};
ghost use Rattle.rules.specs.Sets.{from_section};
ghost use Rattle.rules.specs.Tree.{section_text};
ghost use Rattle.parse_sections.specs.Sections.{spelt, AsksString};

use rules::row;

const QUOTE: u8 = b'"';

// The kind of the section whose string is the text from a to e, its quotes with it.
fn kind_of_string(text: &[u8], a: usize, e: usize) -> u32
    requires { (a + 2 ≤ e) × (e ≤ length text.now) }
    ensures { result ≡ from_section (section_text (take (e - a) (drop a text.now))) }
{
    let from = a + 1;
    let to = e - 1;
    if to <= from {
        return methods::section_kind(&text[from..to]);
    }
    let last = to - 1;
    if text[last] == QUOTE {
        return methods::section_kind(&text[from..last]);
    }
    methods::section_kind(&text[from..to])
}

// The kind of the first section, if there was one, or else of the one whose string is at the row.
pub fn first_kind(text: &[u8], rows: &[u32], row: u32, first: Option<u32>) -> u32
    requires { AsksString text.now rows.now row }
    ensures { result ≡ unwrap_or first (from_section (section_text (spelt text.now rows.now row))) }
{
    if let Some(kind) = first {
        return kind;
    }
    let at = (row as usize) * row::WORDS;
    let a = rows[at + row::START] as usize;
    let e = rows[at + row::END] as usize;
    kind_of_string(text, a, e)
}
