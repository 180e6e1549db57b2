// Sections and sets: the program kind of a section's text, and the methods that each kind allows.
#![tactic(auto)]

ghost use Rattle.std.specs.Prelude.{◌≡◌};
ghost use Rattle.rules.specs.Sets.{from_section};
ghost use Rattle.rules.specs.Calls.{member_asked, size_asked};

use rules::{Outer, fact};

// The methods that each kind allows: a bit for each method.
const MASKS: [u16; 11] = [
    0x00FF, 0x000F, 0x0007, 0x000C, 0xC608, 0xFFFF, 0xC008, 0x0008, 0x0008, 0x0008, 0x0000,
];

// The last of the kinds and of the methods.
const LAST_KIND: u32 = fact::PROGRAM_UNKNOWN;

const LAST_METHOD: u32 = 15;

// The program kind of a section's text: the first section that it fits, so the last is asked first. Bytes are compared where they stand.
// Stays comparisons from the last to the first: as a chain of `starts_with` it takes 88 bytes of stack, and may take 64 (compare/tests/stack.rs).
pub fn section_kind(text: &[u8]) -> u32
    ensures { result ≡ from_section text.now }
{
    let lsm = names::begun(text, b"lsm/", fact::PROGRAM_LSM, fact::PROGRAM_UNKNOWN);
    let fexit = names::begun(text, b"fexit/", fact::PROGRAM_FEXIT, lsm);
    let fentry = names::begun(text, b"fentry/", fact::PROGRAM_FENTRY, fexit);
    let raw = names::begun(
        text,
        b"raw_tracepoint/",
        fact::PROGRAM_RAW_TRACEPOINT,
        fentry,
    );
    let tracepoint = names::begun(text, b"tracepoint/", fact::PROGRAM_TRACEPOINT, raw);
    let kretprobe = names::begun(text, b"kretprobe/", fact::PROGRAM_KPROBE, tracepoint);
    let kprobe = names::begun(text, b"kprobe/", fact::PROGRAM_KPROBE, kretprobe);
    let cgroup = names::begun(text, b"cgroup/", fact::PROGRAM_CGROUP, kprobe);
    let socket = names::begun(text, b"sk_", fact::PROGRAM_SOCKET, cgroup);
    let tc = names::begun(text, b"tc", fact::PROGRAM_TC, socket);
    let classifier = names::spelt(text, b"classifier", fact::PROGRAM_TC, tc);
    let tc_whole = names::spelt(text, b"tc", fact::PROGRAM_TC, classifier);
    names::spelt(text, b"xdp", fact::PROGRAM_XDP, tc_whole)
}

// Whether a kind allows a method: 1 or 0.
pub fn allows(kind: u32, method: u32) -> Result<u32, Outer>
    ensures { result ≡ member_asked kind method }
{
    if LAST_KIND < kind {
        return Err(Outer::NotWellFormed);
    }
    if LAST_METHOD < method {
        return Err(Outer::NotWellFormed);
    }
    let mask = MASKS[kind as usize];
    Ok((mask >> method) as u32 % 2)
}

// How many methods a kind allows.
pub fn set_size(kind: u32) -> Result<u32, Outer>
    ensures { result ≡ size_asked kind }
{
    if LAST_KIND < kind {
        return Err(Outer::NotWellFormed);
    }
    let mask = MASKS[kind as usize];
    Ok(u16::count_ones(mask))
}
