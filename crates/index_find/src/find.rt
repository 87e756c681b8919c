// find_frame: the latest frame of a page within the bounds.
ghost use Rattle.std.specs.Prelude.{◌≡◌, ◌+◌, ◌-◌, ◌*◌, ◌<◌, ◌≤◌, min, length};
ghost use Rattle.wal_types.specs.Settings.{block_entries, block_cells};
ghost use Rattle.index_hash.specs.Home.{home};
ghost use Rattle.index_search.specs.InnerRun.{NearFit, Answers};
ghost use Rattle.index_find.specs.Index.{IndexCall, IndexNumber};
ghost use Rattle.index_find.specs.Find.{visible, visible_pages_of, probe_block, looked_block, looked_up, find_in, looked_in, blocks_for, BlocksFit, upper, lower, find_frame, find_looked, found_answer, cells_told};
ghost use Rattle.index_find.specs.InnerFound.{InBlock, NearTold};

use crate::index;
use index_hash::BLOCK_ENTRIES;
use index_search::probe;
use index_search::probe::Probed;
use wal_types::Header;
use wal_types::refusal::Refusal;
use wal_types::settings::IndexSettings;

// The last place in a block.
const LAST_PLACE: usize = BLOCK_ENTRIES - 1;

// How many of the entries with these frames a reader with this upper bound sees: the source's binary search, as it is
// written. The library's partition_point says nothing of frames that do not rise, and here the contract does.
pub fn visible_frame_index_slots(frames: &[u64], max_frame: u64) -> usize
    ensures { (result ≡ visible frames.now (length frames.now) max_frame) × (result ≤ length frames.now) }
{
    let mut low = 0;
    let mut high = frames.len();
    while low < high {
        let mid = low + (high - low) / 2;
        if frames[mid] <= max_frame {
            low = mid + 1;
        } else {
            high = mid;
        }
    }
    low
}

// The frame found, if there is one, and how many hash cells were looked at.
#[derive(Clone, Copy)]
pub struct Looked {
    pub found: Option<u64>,
    pub cells: u32,
}

// What the near cells of the blocks tell: the answer; or that the first so many blocks are left, of which the last has further
// cells, and how many cells were looked at before. (Break and Continue of a ControlFlow would say less than these names.)
#[derive(Clone, Copy)]
pub enum NearBlocks {
    Ended(Looked),
    Left(usize, u32),
}

// Where a lookup looks, how many entries it sees, and what it looks for.
#[derive(Clone, Copy)]
struct Lookup<'a> {
    pages: &'a [u64],
    frames: &'a [u64],
    hash: &'a [u16],
    visible_slots: usize,
    page_id: u64,
    min_frame: u64,
    max_frame: u64,
    ghost blocks_fit: { BlocksFit visible_slots (length pages.now) (length frames.now) (length hash.now) },
}

impl Lookup<'_> {
    ghost use Rattle.index_find.specs.InnerLookup.{probed_in, looked_at, found_in, cells_in};

    // How many blocks the visible entries take. By a sum: div_ceil tests the remainder besides, and a lookup takes longer by it.
    fn blocks(&self) -> usize
        ensures { result ≡ blocks_for self.now.visible_slots }
    {
        (self.visible_slots + LAST_PLACE) / BLOCK_ENTRIES
    }

    // The pages of block k's entries among the visible ones. (That k is one of the blocks stands in these contracts: a type of
    // such numbers would ask its maker for the same.)
    fn visible_pages(&self, k: usize) -> &[u64]
        requires { k < blocks_for self.now.visible_slots }
        ensures { result.now ≡ visible_pages_of k self.now.visible_slots self.now.pages.now }
    {
        let first = BLOCK_ENTRIES * k;
        let visible = self.visible_slots.saturating_sub(first).min(BLOCK_ENTRIES);
        &self.pages[first..first + visible]
    }

    // Probes block k for the page among its visible entries.
    fn probe_block(&self, k: usize) -> Probed
        requires { k < blocks_for self.now.visible_slots }
        ensures { (result.found ≡ probed_in self.now k) × (result.cells ≡ looked_at self.now k) }
    {
        let cells = index::block_hash(self.hash, k);
        probe::find_frame_in_block(cells, self.visible_pages(k), self.page_id)
    }

    // Probes the near cells of block k from the page's home on.
    fn probe_near_in_block(&self, k: usize, from: usize) -> Option<Probed>
        requires { (k < blocks_for self.now.visible_slots) × ((from ≡ home self.now.page_id) × NearFit from) }
        ensures { Answers (probed_in self.now k) (looked_at self.now k) result }
    {
        let cells = index::block_hash(self.hash, k);
        probe::probe_near(cells, self.visible_pages(k), self.page_id, from)
    }

    // The frame of the entry that a probe of block k has found, if it is within the bounds.
    fn frame_found(&self, k: usize, found: Option<usize>) -> Option<u64>
        requires { (k < blocks_for self.now.visible_slots) × InBlock found }
        ensures { result ≡ looked_up k self.now.frames.now self.now.min_frame self.now.max_frame found }
    {
        let local_entry = found?;
        let frame_id = self.frames[BLOCK_ENTRIES * k + local_entry];
        if (self.min_frame..=self.max_frame).contains(&frame_id) {
            return Some(frame_id);
        }
        None
    }

    // The first so many blocks, from the last of them down, each by the whole run of cells from the page's home on.
    fn find_along_runs(&self, blocks: usize) -> Looked
        requires { blocks ≤ blocks_for self.now.visible_slots }
        ensures { (result.found ≡ found_in self.now blocks) × (result.cells ≡ cells_in self.now blocks) }
    {
        let mut cells = 0;
        // No chain: a block's cells count, whatever it has, and of a closure that counts a proof is told nothing.
        for k in (0..blocks).rev() {
            let probed = self.probe_block(k);
            cells += probed.cells as u32;
            let found = self.frame_found(k, probed.found);
            if found.is_some() {
                return Looked { found, cells };
            }
        }
        Looked { found: None, cells }
    }

    // The blocks of the visible entries, from the last down, each by the near cells, where most probes end; up to the first
    // block whose probe does not end there.
    fn find_near(&self) -> NearBlocks
        ensures { NearTold (found_in self.now) (cells_in self.now) (blocks_for self.now.visible_slots) result }
    {
        let from = index_hash::hash_page_id(self.page_id);
        let blocks = self.blocks();
        if probe::is_home_late(from) {
            return NearBlocks::Left(blocks, 0);
        }
        let mut cells = 0;
        // No chain, as above.
        for k in (0..blocks).rev() {
            let Some(ended) = self.probe_near_in_block(k, from) else {
                return NearBlocks::Left(k + 1, cells);
            };
            cells += ended.cells as u32;
            let found = self.frame_found(k, ended.found);
            if found.is_some() {
                return NearBlocks::Ended(Looked { found, cells });
            }
        }
        NearBlocks::Ended(Looked { found: None, cells })
    }

    // The blocks of the visible entries, from the last down, by the near cells. The first block whose probe does not end there,
    // and the blocks before it, have a loop of their own: with both ways in one loop the compiler computes in each turn the
    // addresses that only the long way needs.
    fn find(&self) -> Looked
        ensures { (result.found ≡ found_in self.now (blocks_for self.now.visible_slots)) × (result.cells ≡ cells_in self.now (blocks_for self.now.visible_slots)) }
    {
        match self.find_near() {
            NearBlocks::Ended(looked) => looked,
            NearBlocks::Left(blocks, counted) => {
                let rest = self.find_along_runs(blocks);
                Looked {
                    found: rest.found,
                    cells: counted + rest.cells,
                }
            }
        }
    }
}

// The lower and the upper bound of a search: a watermark narrows the upper one, and opens the lower one.
fn bounds(min_frame: u64, max_frame: u64, frame_watermark: Option<u64>) -> (u64, u64)
    ensures { (result.0 ≡ lower min_frame frame_watermark) × (result.1 ≡ upper max_frame frame_watermark) }
{
    match frame_watermark {
        Some(watermark) => (0, watermark),
        None => (min_frame, max_frame),
    }
}

// Looks up the latest frame of the page within the bounds, and counts the hash cells that it looks at. Nothing changes. (Here
// and in the other calls the lent cells, the page and the bounds are parameters, as in the source: each call is lent others of
// the cells, to read or to write, and only what a search goes through stands in a struct.)
pub fn find_frame(
    settings: IndexSettings,
    header: Header,
    pages: &[u64],
    frames: &[u64],
    hash: &[u16],
    page_id: u64,
    min_frame: u64,
    max_frame: u64,
    frame_watermark: Option<u64>,
) -> Result<Looked, Refusal>
    ensures { IndexCall (find_frame settings.capacity settings.max_blocks page_id min_frame max_frame frame_watermark) header pages.now frames.now hash.now (found_answer result) header pages.now frames.now hash.now × IndexNumber (find_looked settings.capacity settings.max_blocks page_id min_frame max_frame frame_watermark) header pages.now frames.now hash.now (cells_told result) }
{
    index::check_index(settings, header, pages, frames, hash)?;
    let (lower, upper) = bounds(min_frame, max_frame, frame_watermark);
    if upper < min_frame {
        return Ok(Looked {
            found: None,
            cells: 0,
        });
    }
    let len = header.frame_index_len as usize;
    let visible_slots = visible_frame_index_slots(&frames[..len], upper);
    let lookup = Lookup {
        pages,
        frames,
        hash,
        visible_slots,
        page_id,
        min_frame: lower,
        max_frame: upper,
    };
    Ok(lookup.find())
}
