// Names of two texts in order, a block at a time: the smallest names above the last one, in memory of a fixed size. No promise says that
// they are in order or that none is left out: whoever takes them has to see to it.
#![tactic(auto)]

ghost use Rattle.std.specs.Prelude.{◌≡◌, ◌+◌, ◌%◌, ◌≤◌, ◌<◌, length};

use program_names::Both;
use std::cmp::Ordering;

// How many names a block has.
pub const ROOM: usize = 2048;

// How many first bytes of a name a key has, and how many bits of a word these leave.
const FRONT: usize = 5;

const REST: u32 = 24;

// More than there are rows. A key is the first bytes of a name, as a number, times this, and the row before the name.
const PLACES: u64 = 262144;

// The row before a key's name.
pub fn row_of(key: u64) -> u32
    ensures { result ≡ key % 262144 }
{
    (key % PLACES) as u32
}

// The name after a row, or none past the last row.
fn name_after<'a>(both: &Both<'a>, row: u32) -> &'a [u8]
    requires { row < 4294967295 }
{
    if row + 1 < both.rows() {
        both.spelling(row + 1)
    } else {
        &[]
    }
}

// The first bytes of a name as a number, with zero bytes after a short one.
fn front(name: &[u8]) -> u64
    ensures { result < 1099511627776 }
{
    let mut bytes = [0; 8];
    let n = name.len().min(FRONT);
    bytes[..n].copy_from_slice(&name[..n]);
    u64::from_be_bytes(bytes) >> REST
}

// The key of the name after a row.
fn key_of(both: &Both<'_>, row: u32) -> u64
    requires { row < 4294967295 }
{
    front(name_after(both, row)) * PLACES + u64::from(row) % PLACES
}

// How a key stands to another: by the names' first bytes, by the names, by the rows.
fn order(both: &Both<'_>, x: u64, y: u64) -> Ordering {
    let fronts = (x / PLACES).cmp(&(y / PLACES));
    if fronts != Ordering::Equal {
        return fronts;
    }
    let a = name_after(both, row_of(x));
    let b = name_after(both, row_of(y));
    a.cmp(b).then(x.cmp(&y))
}

// A key put into a heap at a free place, or above it.
fn rise(both: &Both<'_>, heap: &mut [u64], from: usize, x: u64)
    requires { from < length heap.old }
{
    // Stays a while loop: each turn goes on to the place above, and a for has no such step.
    let mut at = from;
    while at > 0 {
        let up = (at - 1) / 2;
        let y = heap[up];
        if order(both, y, x) != Ordering::Less {
            break;
        }
        heap[at] = y;
        at = up;
    }
    heap[at] = x;
}

// A free place moved from a heap's top to its end, the larger key below it moved up each time: where it comes to stand.
fn sink(both: &Both<'_>, heap: &mut [u64]) -> usize
    requires { 0 < length heap.old }
    ensures { result < length heap.old }
{
    // Stays a while loop: each turn goes on to the larger of the two places below, and a for has no such step.
    let mut at = 0;
    while 2 * at + 2 < heap.len() {
        let left = 2 * at + 1;
        let is_right = order(both, heap[left], heap[left + 1]) == Ordering::Less;
        let below = left + usize::from(is_right);
        heap[at] = heap[below];
        at = below;
    }
    let last = 2 * at + 1;
    if last < heap.len() {
        heap[at] = heap[last];
        last
    } else {
        at
    }
}

// A key offered to a heap of the n smallest: how many it has then.
fn offer(both: &Both<'_>, keys: &mut [u64; ROOM], n: usize, x: u64) -> usize
    requires { n ≤ 2048 }
    ensures { result ≤ 2048 }
{
    if n < ROOM {
        rise(both, keys, n, x);
        return n + 1;
    }
    if order(both, x, keys[0]) == Ordering::Less {
        let at = sink(both, keys);
        rise(both, keys, at, x);
    }
    n
}

// The smallest names after a key, or of all, as a heap: how many there are.
fn gather(both: &Both<'_>, keys: &mut [u64; ROOM], above: Option<u64>) -> usize
    ensures { result ≤ 2048 }
{
    let mut n = 0;
    for row in 0..both.rows() {
        if both.is_head(row) {
            let x = key_of(both, row);
            if above.map_or(true, |last| order(both, last, x) == Ordering::Less) {
                n = offer(both, keys, n, x);
            }
        }
    }
    n
}

// The keys of the next block of names, the smallest after a key, or of all, in order.
pub fn block<'k>(both: &Both<'_>, keys: &'k mut [u64; ROOM], above: Option<u64>) -> &'k [u64]
    ensures { length result.now ≤ 2048 }
{
    let n = gather(both, keys, above);
    keys[..n].sort_unstable_by(|x, y| order(both, *x, *y));
    &keys[..n]
}
