// What a call told and left, in ten words: the eight that it told, and the digests of what was lent, memory and list.

// How many words there are.
pub const WORDS: usize = 10;

// The prime to which digests are counted, and what each is multiplied by.
const MODULUS: u64 = 4294967291;

const FACTOR: u64 = 31;

// A digest with one number more.
fn onward(digest: u32, x: u32) -> u32 {
    ((digest as u64 * FACTOR + x as u64) % MODULUS) as u32
}

// The digest of bytes or words.
pub fn digest<T: Copy>(list: &[T]) -> u32
where
    u32: From<T>,
{
    list.iter()
        .fold(0, |digest, x| onward(digest, u32::from(*x)))
}

// Ten words of eight and two digests.
pub fn joined(told: &[u32; 8], memory: u32, list: u32) -> [u32; WORDS] {
    [
        told[0], told[1], told[2], told[3], told[4], told[5], told[6], told[7], memory, list,
    ]
}
