// What the calls on the index share: the refusals that all of them have, and one block's hash as a part of the whole.
ghost use Rattle.std.specs.Prelude.{◌≡◌, ◌+◌, ◌*◌, ◌<◌, ◌≤◌, ltb, length, set};
ghost use Rattle.wal_types.specs.Settings.{block_entries, block_cells, cells_for};
ghost use Rattle.wal_types.specs.Refusal.{refused_number};
ghost use Rattle.index_hash.specs.Block.{cleared, empty_cell, built};
ghost use Rattle.index_find.specs.Index.{bad_settings, short_entries, index_refusal, entries_refusal, block_cells_of, with_block, HasBlock};

use index_hash::{BLOCK_CELLS, BLOCK_ENTRIES};
use wal_types::refusal::Refusal;
use wal_types::settings::IndexSettings;
use wal_types::{FRAME_INDEX_BLOCK_CAPACITY, Header};

fn bad_settings(settings: IndexSettings, header: Header) -> bool
    ensures { result ≡ bad_settings settings.capacity settings.max_blocks header }
{
    !(1..=65536).contains(&settings.capacity)
        || !(1..=16).contains(&settings.max_blocks)
        || settings.capacity < header.frame_index_len
        || settings.max_blocks < header.frame_index_blocks
        || FRAME_INDEX_BLOCK_CAPACITY * header.frame_index_blocks < header.frame_index_len
}

// (That there are at most 16 blocks is asked of the settings here and where an entry is placed: they are refused before.)
fn short_entries(settings: IndexSettings, pages: &[u64], frames: &[u64]) -> bool
    requires { settings.max_blocks ≤ 16 }
    ensures { result ≡ short_entries settings.max_blocks (length pages.now) (length frames.now) }
{
    let entries = BLOCK_ENTRIES * settings.max_blocks as usize;
    pages.len() < entries || frames.len() < entries
}

// The refusals that every call on the index has that is lent the entries without the hash.
pub fn check_entries(
    settings: IndexSettings,
    header: Header,
    pages: &[u64],
    frames: &[u64],
) -> Result<(), Refusal>
    ensures { refused_number result ≡ entries_refusal settings.capacity settings.max_blocks header (length pages.now) (length frames.now) }
{
    if bad_settings(settings, header) {
        return Err(Refusal::Settings);
    }
    if short_entries(settings, pages, frames) {
        return Err(Refusal::ShortMemory);
    }
    Ok(())
}

fn short_hash(settings: IndexSettings, hash: &[u16]) -> bool
    requires { settings.max_blocks ≤ 16 }
    ensures { result ≡ ltb (length hash.now) (cells_for settings.max_blocks) }
{
    hash.len() < BLOCK_CELLS * settings.max_blocks as usize
}

// Those of a call that is lent the hash too.
pub fn check_index(
    settings: IndexSettings,
    header: Header,
    pages: &[u64],
    frames: &[u64],
    hash: &[u16],
) -> Result<(), Refusal>
    ensures { refused_number result ≡ index_refusal settings.capacity settings.max_blocks header (length pages.now) (length frames.now) (length hash.now) }
{
    check_entries(settings, header, pages, frames)?;
    if short_hash(settings, hash) {
        return Err(Refusal::ShortMemory);
    }
    Ok(())
}

// Clears block k's hash. (That block k is lent stands in these contracts, as HasBlock: a type of such numbers would ask its maker
// for the same.)
pub fn clear_block(hash: &mut [u16], k: usize)
    requires { HasBlock k (length hash.old) }
    ensures { hash.new ≡ with_block k cleared hash.old }
{
    let a = BLOCK_CELLS * k;
    let e = a + BLOCK_CELLS;
    index_hash::clear_frame_index_block_hash(&mut hash[a..e]);
}

// Block k's hash.
pub fn block_hash(hash: &[u16], k: usize) -> &[u16; BLOCK_CELLS]
    requires { HasBlock k (length hash.now) }
    ensures { result.now ≡ block_cells_of k hash.now }
{
    let (blocks, _) = hash.as_chunks::<BLOCK_CELLS>();
    &blocks[k]
}

// The cell of block k's hash for a page's next entry.
pub fn cell_in_block(hash: &[u16], k: usize, page_id: u64) -> Option<usize>
    requires { HasBlock k (length hash.now) }
    ensures { result ≡ empty_cell (block_cells_of k hash.now) page_id }
{
    index_search::empty::empty_cell(block_hash(hash, k), page_id)
}

// That cell names the entry at a place of block k.
pub fn name_in_block(hash: &mut [u16], k: usize, cell: usize, local_index: usize)
    requires { HasBlock k (length hash.old) × ((cell < block_cells) × (local_index < block_entries)) }
    ensures { hash.new ≡ with_block k (set (block_cells_of k hash.old) cell (local_index + 1)) hash.old }
{
    let a = BLOCK_CELLS * k;
    let e = a + BLOCK_CELLS;
    index_hash::name_entry(&mut hash[a..e], cell, local_index);
}

// Block k's hash is rebuilt for its first entries, which have these pages.
pub fn rebuild_block(hash: &mut [u16], k: usize, pages: &[u64])
    requires { HasBlock k (length hash.old) × (length pages.now ≤ block_entries) }
    ensures { hash.new ≡ with_block k (built pages.now (length pages.now)) hash.old }
{
    let a = BLOCK_CELLS * k;
    let e = a + BLOCK_CELLS;
    index_rebuild::rebuild::rebuild_frame_index_block_hash(&mut hash[a..e], pages);
}
