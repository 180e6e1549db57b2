// One block of a file: held against what it should be, counted, written where it differs, and listed.
ghost use Rattle.rules_files.specs.Blocks.{block_bytes};
ghost use Rattle.std.specs.Prelude.{◌≡◌, false, ◌++◌, ◌+◌, ◌*◌, ◌≤◌, length, take, drop};
ghost use Rattle.rules.specs.Kinds.{same_bytes};
ghost use Rattle.file_patch.specs.Block.{block_of, entry, entry_here};

use check::same;
use rules_files::form;

// Whether block k of a file is there and is this one.
fn is_right(file: &[u8], k: u32, fresh: &[u8]) -> bool
    requires { length fresh.now ≡ block_bytes }
    ensures { result ≡ same_bytes fresh.now (block_of k file.now) }
{
    let at = form::BLOCK * (k as usize);
    let end = at + form::BLOCK;
    if file.len() < end {
        return false;
    }
    same(&file[at..end], fresh)
}

// How many entries block k has in the list: one if it differs.
pub fn count_block(file: &[u8], k: u32, fresh: &[u8]) -> usize
    requires { length fresh.now ≡ block_bytes }
    ensures { result ≡ length (entry k fresh.now file.now) }
{
    if is_right(file, k, fresh) {
        return 0;
    }
    1
}

// Block k in place of what stands in memory there, which differs from it. Nothing else writes into a file.
fn write_block(memory: &mut [u8], k: u32, fresh: &[u8])
    requires { ((length fresh.now ≡ block_bytes) × (block_bytes * k + block_bytes ≤ length memory.old))
        × (same_bytes fresh.now (block_of k memory.old) ≡ false) }
    ensures { memory.new
        ≡ take (block_bytes * k) memory.old ++ (fresh.now ++ drop (block_bytes * k + block_bytes) memory.old) }
{
    let at = form::BLOCK * (k as usize);
    for i in 0..form::BLOCK {
        memory[at + i] = fresh[i];
    }
}

// Block k of memory, whatever of it is file: it is written if the bytes that stand there differ, and left alone if they
// are right.
fn restore_block(memory: &mut [u8], k: u32, fresh: &[u8])
    requires { (length fresh.now ≡ block_bytes) × (block_bytes * k + block_bytes ≤ length memory.old) }
    ensures { memory.new
        ≡ take (block_bytes * k) memory.old ++ (fresh.now ++ drop (block_bytes * k + block_bytes) memory.old) }
{
    if count_block(memory, k, fresh) == 0 {
        return;
    }
    write_block(memory, k, fresh);
}

// Block k, behind so many entries of the list: if it differs in the first n bytes of memory it is put there and listed.
// How many entries there are then is told.
pub fn mend_block(
    memory: &mut [u8],
    n: usize,
    k: u32,
    fresh: &[u8],
    list: &mut [u32],
    listed: usize,
) -> usize
    requires { ((length fresh.now ≡ block_bytes) × (block_bytes * k + block_bytes ≤ length memory.old))
        × ((n ≤ length memory.old)
        × (listed + length (entry_here n k fresh.now memory.old) ≤ length list.old)) }
    ensures { (result ≡ listed + length (entry_here n k fresh.now memory.old))
        × ((memory.new
        ≡ take (block_bytes * k) memory.old ++
        (fresh.now ++ drop (block_bytes * k + block_bytes) memory.old))
        × (list.new
        ≡ take listed list.old ++
        (entry_here n k fresh.now memory.old ++ drop result list.old))) }
{
    if is_right(&memory[..n], k, fresh) {
        return listed;
    }
    restore_block(memory, k, fresh);
    list[listed] = k;
    listed + 1
}
