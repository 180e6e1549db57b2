// Lists several texts, one after the other, each under a line that says what it is.
#![tactic(auto)]

use lister_lines::MOST_LISTING;
use std::io;

// A case's name, and what the lister writes of its text.
fn case(rt: &impl Print, name: &[u8], text: &[u8]) -> io::Result<()> {
    rt.write_all(name)?;
    let mut out = [0u8; MOST_LISTING];
    let r = lister_lines::listing(text, &mut out);
    rt.write_all(&out[..r])
}

// Texts that are refused, and an empty one.
fn refused(rt: &impl Print) -> io::Result<()> {
    case(rt, b"-- empty\n", b"")?;
    case(rt, b"-- a byte that begins no row\n", b"map m\n{ @ }")?;
    case(rt, b"-- an open string\n", b"unit u { section \"xdp;\n}")?;
    case(rt, b"-- a byte of 128 alone\n", b"\x80")?;
    case(
        rt,
        b"-- a byte of 128 or more in a string\n",
        b"unit u{\n \"\xc3\xa9\"}",
    )?;
    case(rt, b"-- another kind wanted\n", b"unit u{\n x -1;\n}\n")?;
    case(
        rt,
        b"-- a map with no value\n",
        b"map m{type:.hash;key:u32;max:1;}\n",
    )
}

// Numbers at the edges of their range, and a text with each kind of node.
fn accepted(rt: &impl Print) -> io::Result<()> {
    case(
        rt,
        b"-- large values\n",
        b"unit u{a=9223372036854775807;b=-9223372036854775807;c=0x100000000 - 4294967295;}",
    )?;
    case(
        rt,
        b"-- a map, an event and a unit\n",
        b"map m{type:.hash;key:u32;value:u64;max:1<<10;}\nevent e{a:u32;b:bytes[16];}\nunit u{\n section \"kprobe/f\";\n license \"GPL\";\n reg r=c.load_u32(4);\n if guard(r){ *r=m.at(r+1); } else { heap h=r.f; }\n return 0;\n}\n",
    )
}

// Both sides of the longest text.
fn long(rt: &impl Print) -> io::Result<()> {
    let fits = [32u8; 16384];
    case(rt, b"-- 16384 bytes\n", &fits)?;
    let over = [32u8; 16385];
    case(rt, b"-- 16385 bytes\n", &over)?;
    let high = [128u8; 16385];
    case(rt, b"-- 16385 bytes of 128\n", &high)
}

// Both sides of the room for rows: a row for each byte, and Eof.
fn many(rt: &impl Print) -> io::Result<()> {
    let fits = [59u8; 1999];
    case(rt, b"-- 2000 rows\n", &fits)?;
    let over = [59u8; 2000];
    case(rt, b"-- 2001 rows\n", &over)
}

// Every case, one behind the other.
fn main(rt: HostRuntime) -> io::Result<()> {
    refused(&rt)?;
    accepted(&rt)?;
    long(&rt)?;
    many(&rt)
}
