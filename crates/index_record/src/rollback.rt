// rollback_frames: entries are dropped from the end.
ghost use Rattle.std.specs.Prelude.{◌≡◌, ◌≤◌, length};
ghost use Rattle.index_hash.specs.Block.{built};
ghost use Rattle.index_find.specs.Index.{block_of, place_of, block_pages_of, with_block, HasBlock, IndexCall};
ghost use Rattle.index_record.specs.Rollback.{rollback_frames, rollback_answer};

use index_end::kept;
use index_find::index;
use index_hash::BLOCK_ENTRIES;
use wal_types::Header;
use wal_types::refusal::Refusal;
use wal_types::settings::IndexSettings;

// The hash of the last block is rebuilt for its entries, where there are n in all. Not inlined: the loop over the frames would
// compute in each turn the addresses that only the rebuild needs, and take two cycles for an entry.
#[inline(never)]
fn rebuild_last(hash: &mut [u16], pages: &[u64], n: usize)
    requires { HasBlock (block_of n) (length hash.old) × (n ≤ length pages.now) }
    ensures { hash.new ≡ with_block (block_of n) (built (block_pages_of (block_of n) pages.now) (place_of n)) hash.old }
{
    let k = n / BLOCK_ENTRIES;
    index::rebuild_block(hash, k, &pages[BLOCK_ENTRIES * k..n]);
}

// Drops the entries from the end whose frame is above max_frame, and tells the kept length. Where none is dropped there is no
// store, so that such a call can be made on memory that is mapped read-only. A refused one changes nothing.
pub fn rollback_frames(
    settings: IndexSettings,
    header: &mut Header,
    pages: &[u64],
    frames: &[u64],
    hash: &mut [u16],
    max_frame: u64,
) -> Result<u32, Refusal>
    ensures { IndexCall (rollback_frames settings.capacity settings.max_blocks max_frame) header.old pages.now frames.now hash.old (rollback_answer result) header.new pages.now frames.now hash.new }
{
    index::check_index(settings, *header, pages, frames, hash)?;
    let len = header.frame_index_len as usize;
    let n = kept::kept_entries(&frames[..len], max_frame);
    let kept_len = n as u32;
    if len <= n {
        return Ok(kept_len);
    }
    header.frame_index_len = kept_len;
    if n % BLOCK_ENTRIES == 0 {
        return Ok(kept_len);
    }
    rebuild_last(hash, pages, n);
    Ok(kept_len)
}
