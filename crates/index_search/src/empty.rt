// Where a page's next entry goes.
ghost use Rattle.std.specs.Prelude.{◌≡◌, length};
ghost use Rattle.index_hash.specs.Block.{empty_cell};

use crate::run;
use crate::run::NEAR_CELLS;
use index_hash::BLOCK_CELLS;

// The cell where the page's entry goes: the first empty one from its home on. Many cells at a look.
pub fn far_empty_cell(hash: &[u16; BLOCK_CELLS], page_id: u64) -> Option<usize>
    ensures { result ≡ empty_cell hash.now page_id }
{
    let home = index_hash::hash_page_id(page_id);
    let cell = run::live_until(hash, home, BLOCK_CELLS, run::ANY_ENTRY);
    if cell < BLOCK_CELLS {
        return Some(cell);
    }
    let first = run::live_until(hash, 0, home, run::ANY_ENTRY);
    if first < home {
        return Some(first);
    }
    None
}

// The same, and the near cells first.
pub fn empty_cell(hash: &[u16; BLOCK_CELLS], page_id: u64) -> Option<usize>
    ensures { result ≡ empty_cell hash.now page_id }
{
    let home = index_hash::hash_page_id(page_id);
    let end = BLOCK_CELLS.min(home + NEAR_CELLS);
    let cell = run::near_live_until(hash, home, end, run::ANY_ENTRY);
    if cell < end {
        return Some(cell);
    }
    far_empty_cell(hash, page_id)
}
