// Memory that is lent to a call: the first part of it, what is put there, and what is expected there behind the call.

// What stands in a lent word and in a lent byte before a call.
pub const UNTOUCHED: u32 = 2863311530;

pub const UNTOUCHED_BYTE: u8 = 170;

// The first so many of some memory, or all if there are fewer.
pub fn first<T>(memory: &[T], size: usize) -> &[T] {
    memory.get(..size).unwrap_or(memory)
}

// The same, to be written.
pub fn lent<T>(memory: &mut [T], size: usize) -> &mut [T] {
    let end = size.min(memory.len());
    &mut memory[..end]
}

// Bytes behind the first so many of memory, as far as there is room: how many there are then.
pub fn put(memory: &mut [u8], size: usize, bytes: &[u8]) -> usize {
    let from = size.min(memory.len());
    let behind = &mut memory[from..];
    let room = bytes.len().min(behind.len());
    behind[..room].copy_from_slice(&bytes[..room]);
    size.saturating_add(room)
}

// The first index of memory at which something else stands than is expected behind a call that wrote these, from the first on: the index,
// what stands there, and what is expected.
pub fn first_changed<T: Copy + PartialEq>(
    memory: &[T],
    written: &[T],
    untouched: T,
) -> Option<(usize, T, T)> {
    for (i, x) in memory.iter().enumerate() {
        let expected = written.get(i).copied().unwrap_or(untouched);
        if *x != expected {
            return Some((i, *x, expected));
        }
    }
    None
}
