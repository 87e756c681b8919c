// rebuild_frame_index_block_hash: a block's hash from its entries.
ghost use Rattle.std.specs.Prelude.{◌≡◌, ◌<◌, ◌≤◌, length};
ghost use Rattle.wal_types.specs.Settings.{block_entries, block_cells};
ghost use Rattle.index_hash.specs.Block.{cleared, empty_cell, inserted, built};

use crate::map::CellMap;
use index_hash::BLOCK_CELLS;
use index_search::empty;

// An entry is near its home if one of so many cells from there on is empty.
const NEAR_CELLS: usize = 8;

// So many entries may be far from their homes before the map is made.
const FAR_ENTRIES: usize = 64;

// From so many entries on the first ones are looked at, and how many those are.
const MANY_ENTRIES: usize = 1024;

const FIRST_ENTRIES: usize = 64;

// Where so many of the first entries, times all of them, are displaced, a page has eight entries or more: of 64 entries
// of p pages some 64 x 64 / 2p are displaced.
const MANY_DISPLACED: usize = 16384;

// The page's entry at this place of the block, named in the first empty cell from the page's home on.
pub fn insert_frame_index_block_hash(
    hash: &mut [u16; BLOCK_CELLS],
    local_index: usize,
    page_id: u64,
) -> Option<usize>
    requires { local_index < block_entries }
    ensures { (result ≡ empty_cell hash.old page_id) × (hash.new ≡ inserted hash.old local_index page_id) }
{
    let cell = empty::far_empty_cell(hash, page_id)?;
    index_hash::name_entry(hash, cell, local_index);
    Some(cell)
}

// A block's hash while it is built anew: the entries before the next one are inserted.
#[derive(Drop)]
struct Rebuild<'a> {
    hash: &'a mut [u16; BLOCK_CELLS],
    pages: &'a [u64],
    next: usize,
    ghost fits: { (length pages.now ≤ block_entries) × (next ≤ length pages.now) },
    ghost inserted: { hash.now ≡ built pages.now next },
}

impl Rebuild<'_> {
    ghost use Rattle.index_rebuild.specs.InnerRebuild.{SameBlock};

    // Inserts the entries up to this one; stops at one that is far from its home once so many have been. By number:
    // that is what a cell names.
    #[tactic(auto, using(index_hash::proofs::Built::built_at, index_hash::proofs::Built::built_more, index_search::proofs::Passed::found_near))]
    fn insert_near(&mut self, end: usize, far_entries: usize)
        requires { (self.old.next ≤ end) × (end ≤ length self.old.pages.now) }
        ensures { SameBlock self.old self.new }
    {
        let hash = &mut *self.hash;
        let pages = self.pages;
        let mut far_left = far_entries;
        for local_index in self.next..end {
            let page_id = pages[local_index];
            let home = index_hash::hash_page_id(page_id);
            if let Some(cell) = index_hash::empty_from(hash, home, NEAR_CELLS) {
                index_hash::name_entry(hash, cell, local_index);
                continue;
            }
            if far_left == 0 {
                self.next = local_index;
                return;
            }
            far_left -= 1;
            insert_frame_index_block_hash(hash, local_index, page_id);
        }
        self.next = end;
    }

    // Inserts the next entry, however far from its home it ends.
    #[tactic(auto, using(index_hash::proofs::Built::built_more))]
    fn insert_far(&mut self)
        requires { self.old.next < length self.old.pages.now }
        ensures { SameBlock self.old self.new }
    {
        let local_index = self.next;
        let page_id = self.pages[local_index];
        let hash = &mut *self.hash;
        insert_frame_index_block_hash(hash, local_index, page_id);
        self.next = local_index + 1;
    }

    // Inserts the entries that are left by the map, by number too.
    #[tactic(auto, using(index_hash::proofs::Empty::found_below, index_hash::proofs::Used::room_left, index_hash::proofs::Built::built_cells))]
    fn insert_by_map(&mut self)
        ensures { SameBlock self.old self.new × (self.new.next ≡ length self.old.pages.now) }
    {
        let hash = &mut *self.hash;
        let pages = self.pages;
        let mut map = CellMap::new();
        for local_index in self.next..pages.len() {
            let Some(cell) = map.empty_cell(hash, pages[local_index]) else {
                return;
            };
            index_hash::name_entry(hash, cell, local_index);
            map.drop_cell(cell);
        }
        self.next = pages.len();
    }

    // Whether the entries are of few pages, judged by the first ones, which are inserted: how many of them do not stand
    // at their homes. The guess only decides by which way the rest is inserted.
    fn is_of_few_pages(&self) -> bool
        requires { 0 < length self.now.pages.now }
    {
        let displaced = self.pages[..self.next]
            .iter()
            .enumerate()
            .filter(|&(local_index, &page_id)| {
                self.hash[index_hash::hash_page_id(page_id)] as usize != local_index + 1
            })
            .count();
        MANY_DISPLACED / self.pages.len() <= displaced
    }

    // Inserts the entries that are left; once FAR_ENTRIES have been far from their homes, the rest goes by the map. (The
    // last of these stands apart: another way out of the loop of insert_near costs each near entry two instructions.)
    fn insert_all(&mut self)
        ensures { SameBlock self.old self.new × (self.new.next ≡ length self.old.pages.now) }
    {
        let end = self.pages.len();
        self.insert_near(end, FAR_ENTRIES - 1);
        if self.next < end {
            self.insert_far();
            self.insert_by_map();
        }
    }
}

// Inserts all entries into a cleared hash, in order. In a block with many entries the first ones tell whether it is of
// few pages: if so, the map is made at once.
fn insert_visible(hash: &mut [u16; BLOCK_CELLS], pages: &[u64])
    requires { (length pages.now ≤ block_entries) × (hash.old ≡ cleared) }
    ensures { hash.new ≡ built pages.now (length pages.now) }
{
    let mut rebuild = Rebuild {
        hash,
        pages,
        next: 0,
    };
    if pages.len() < MANY_ENTRIES {
        rebuild.insert_all();
        return;
    }
    rebuild.insert_near(FIRST_ENTRIES, 0);
    if rebuild.is_of_few_pages() {
        rebuild.insert_by_map();
        return;
    }
    rebuild.insert_all();
}

// The block's hash anew: cleared, then its visible entries, whose pages these are, inserted in order. (A slice, as for
// clear_frame_index_block_hash.)
pub fn rebuild_frame_index_block_hash(hash: &mut [u16], pages: &[u64])
    requires { (length hash.old ≡ block_cells) × (length pages.now ≤ block_entries) }
    ensures { hash.new ≡ built pages.now (length pages.now) }
{
    index_hash::clear_frame_index_block_hash(hash);
    let block = hash.as_mut_array::<BLOCK_CELLS>().unwrap();
    insert_visible(block, pages);
}
