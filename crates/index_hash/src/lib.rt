// One block's hash table: open addressing with linear probing over the block's 8,192 cells. A cell holds the place of
// an entry in the block + 1, or 0 where it is empty. This crate goes cell by cell; `index_search` looks at many cells
// at once, and `index_rebuild` builds a table anew.
#![tactic(auto)]

ghost use Rattle.std.specs.Prelude.{◌≡◌, ◌+◌, ◌*◌, ◌%◌, ◌<◌, ◌≤◌, length, set};
ghost use Rattle.wal_types.specs.Settings.{block_entries, block_cells};
ghost use Rattle.index_hash.specs.Home.{home};
ghost use Rattle.index_hash.specs.Block.{cleared, empty_from};

use wal_types::{FRAME_INDEX_BLOCK_CAPACITY, FRAME_INDEX_BLOCK_HASH_SLOTS};

// A block's entries and hash cells, as indexes.
pub const BLOCK_ENTRIES: usize = FRAME_INDEX_BLOCK_CAPACITY as usize;

pub const BLOCK_CELLS: usize = FRAME_INDEX_BLOCK_HASH_SLOTS as usize;

const HASH_SLOTS: u64 = FRAME_INDEX_BLOCK_HASH_SLOTS as u64;

// (page × 383) mod 8,192. The remainder goes first, so that the product cannot wrap.
pub fn hash_page_id(page_id: u64) -> usize
    ensures { (result ≡ home page_id) × (result < block_cells) }
{
    ((page_id % HASH_SLOTS) * 383 % HASH_SLOTS) as usize
}

// Every cell empty. (A slice, with its length in the contract: of a part of a slice that is lent as `&mut [u16; N]` the
// lender's proof is not told what it becomes.)
pub fn clear_frame_index_block_hash(hash: &mut [u16])
    requires { length hash.old ≡ block_cells }
    ensures { hash.new ≡ cleared }
{
    hash.fill(0);
}

// The first empty one of so many cells from this one on, if there is one. (The second remainder changes nothing: the
// closure is not told that the cell is one of the block's.)
pub fn empty_from(hash: &[u16; BLOCK_CELLS], from: usize, cells: usize) -> Option<usize>
    requires { from < block_cells }
    ensures { result ≡ empty_from cells hash.now from }
{
    (0..cells)
        .map(|step| (from + step % BLOCK_CELLS) % BLOCK_CELLS)
        .find(|&cell| hash[cell % BLOCK_CELLS] == 0)
}

// The cell names the entry at this place of the block. (The bounds of a cell and of a place stand in contracts, here and above:
// a type of such numbers would ask its maker for the same.)
pub fn name_entry(hash: &mut [u16], cell: usize, local_index: usize)
    requires { (cell < length hash.old) × (local_index < block_entries) }
    ensures { hash.new ≡ set hash.old cell (local_index + 1) }
{
    hash[cell] = (local_index + 1) as u16;
}
