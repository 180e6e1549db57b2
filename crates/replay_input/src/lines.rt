// Lines of standard output: numbers behind the words that say what they are.
use std::io;

// A number behind some words.
pub fn told(rt: &impl Print, name: &[u8], n: u64) -> io::Result<()> {
    rt.write_all(name)?;
    print!(rt; "{n}")
}

// The end of a line.
pub fn end(rt: &impl Print) -> io::Result<()> {
    rt.write_all(b"\n")
}

// A number behind some words, and a newline.
pub fn one(rt: &impl Print, name: &[u8], a: u64) -> io::Result<()> {
    told(rt, name, a)?;
    end(rt)
}

// Two numbers behind some words each, and a newline.
pub fn two(rt: &impl Print, first: &[u8], a: u64, second: &[u8], b: u64) -> io::Result<()> {
    told(rt, first, a)?;
    told(rt, second, b)?;
    end(rt)
}
