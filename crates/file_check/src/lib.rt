// The check of a block's bytes, and whether its filler is zero.
#![tactic(auto)]

ghost use Rattle.std.specs.Prelude.{◌≡◌, ◌+◌, ◌-◌, ◌*◌, ◌≤◌, length, take, drop};
ghost use Rattle.rules_files.specs.Blocks.{check, zeros, block_bytes, checked_bytes};
ghost use Rattle.file_check.specs.Columns.{plus, total, Within, Added};

use rules_files::form;

// The bytes of a block as strips of so many bytes, one below the other, in whose columns they are added up.
const STRIPS: usize = 8;

const COLUMNS: usize = 64;

const STRIP_BYTES: u32 = 64;

// The place of the first byte of the check itself.
const OWN_PLACE: u32 = 509;

// ---- the check

// The bytes of a strip, onto the sums of their columns.
fn add_bytes(sums: &mut [u16; COLUMNS], strip: &[u8])
    requires { (length strip.now ≡ 64) × Within 65280 sums.old }
    ensures { Added sums.old strip.now sums.new }
{
    for (j, byte) in strip.iter().enumerate() {
        sums[j] += u16::from(*byte);
    }
}

// The sums of columns, onto others.
fn add_sums(onto: &mut [u16; COLUMNS], sums: &[u16; COLUMNS])
    requires { Within 32767 onto.old × Within 32767 sums.now }
    ensures { onto.new ≡ plus onto.old sums.now }
{
    for (j, sum) in sums.iter().enumerate() {
        onto[j] += *sum;
    }
}

// The check of strips of which each column's sum is known, and the sums of what stands below each strip.
fn weigh(sums: &[u16; COLUMNS], below: &[u16; COLUMNS]) -> u32
    ensures { result ≡ check sums.now + 64 * total below.now }
{
    let mut sum: u32 = 0;
    for j in 0..COLUMNS {
        let place = j as u32 + 1;
        sum += u32::from(sums[j]) * place + STRIP_BYTES * u32::from(below[j]);
    }
    sum
}

// What the four bytes of the check itself would add.
fn own_part(bytes: &[u8]) -> u32
    requires { length bytes.now ≡ block_bytes }
    ensures { check (take checked_bytes bytes.now) + result ≡ check bytes.now }
{
    u32::from(bytes[form::CHECKED]) * OWN_PLACE
        + u32::from(bytes[form::CHECKED + 1]) * (OWN_PLACE + 1)
        + u32::from(bytes[form::CHECKED + 2]) * (OWN_PLACE + 2)
        + u32::from(bytes[form::CHECKED + 3]) * (OWN_PLACE + 3)
}

// The check of a block: each byte in front of it times its place, counted from 1. Strips are added up from the last to
// the first, column by column, so that the compiler works on many columns at once and multiplies only at the end.
pub fn check_of(bytes: &[u8]) -> u32
    requires { length bytes.now ≡ block_bytes }
    ensures { result ≡ check (take checked_bytes bytes.now) }
{
    let mut sums = [0u16; COLUMNS];
    let mut below = [0u16; COLUMNS];
    for k in (0..STRIPS).rev() {
        add_sums(&mut below, &sums);
        add_bytes(&mut sums, &bytes[COLUMNS * k..COLUMNS * (k + 1)]);
    }
    weigh(&sums, &below) - own_part(bytes)
}

// ---- the filler

// Whether all bytes from one on to the check are zero, as the largest of them is then. No turn ends the loop early, so that the compiler looks
// at many bytes at once.
pub fn is_filler(bytes: &[u8], from: usize) -> bool
    requires { (from ≤ checked_bytes) × (checked_bytes ≤ length bytes.now) }
    ensures { result ≡ zeros (take (checked_bytes - from) (drop from bytes.now)) }
{
    let mut most = 0;
    for b in &bytes[from..form::CHECKED] {
        most = most.max(*b);
    }
    most == 0
}
