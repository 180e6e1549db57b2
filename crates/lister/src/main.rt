// The lister: reads a text on standard input and writes what is listed of it on standard output.
#![tactic(auto)]

use lister_lines::MOST_LISTING;
use std::io;
use std::io::Read;

// One byte more than the longest text that is listed, so that a longer one is seen.
const MOST_READ: u64 = 16385;

// Lists the text on standard input.
fn main(rt: HostRuntime) -> io::Result<()> {
    let mut text = Vec::new(rt.alloc());
    rt.reader().take(MOST_READ).read_to_end(&mut text)?;
    let mut out = [0u8; MOST_LISTING];
    let r = lister_lines::listing(&text, &mut out);
    rt.write_all(&out[..r])
}
