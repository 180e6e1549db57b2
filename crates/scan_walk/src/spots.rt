// Spots moved over what was told there.
ghost use Rattle.std.specs.Prelude.{◌≡◌};
ghost use Rattle.scan_reader.specs.Read.{onward};
ghost use Rattle.scan_walk.specs.Walk.{Passable};

use scan_place::pass;
use scan_reader::{Brief, Spot, codes};

// The spot behind what was told at a spot. A row holds no newline, a blank or a comment to the end of its line none but its last byte.
pub fn behind(text: &[u8], here: Spot, told: Brief) -> Spot
    requires { Passable text.now here told }
    ensures { result ≡ onward text.now here told.size }
{
    let size = told.size;
    let at = here.at;
    let cursor = here.cursor;
    if told.kind < codes::BLANK {
        return Spot {
            at: at + size,
            cursor: cursor.onward(size as u32),
        };
    }
    if told.kind <= codes::LINE {
        let n = size - 1;
        return Spot {
            at: at + size,
            cursor: cursor.onward(n as u32).advance(text[at + n]),
        };
    }
    Spot {
        at: at + size,
        cursor: pass(&text[at..], cursor, size),
    }
}
