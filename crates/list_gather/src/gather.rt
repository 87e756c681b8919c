// Of the visible entries that the hash names, from the last down, at least each page's latest.
//
// Most logs write the same pages over and over, and what is gathered has to be sorted. So a cache of 1,024 guesses stands
// beside the list: for the pages of one remainder by 1,024, the entry gathered of them last, or 0 for none. A guess is only
// asked: it leaves an entry out if it is a later one and has the same page. One that another page has overwritten lets an entry
// through that the choice drops after the sort; it cannot leave a page out. That is why the contract says no more than each
// page's first. An exact table would need room for 65,536 pages, cleared at every call. Without the guesses a list over 65,536
// entries of 100 pages took three times as long; where all pages differ, as long as with them.
ghost use Rattle.std.specs.Prelude.{◌≡◌, ◌⊎◌, false, ◌||◌, List, [], ◌∷◌, ◌++◌, ℕ, ◌+◌, ◌*◌, ◌<◌, ◌≤◌, min, length, get_or, take};
ghost use Rattle.wal_types.specs.Settings.{block_entries, block_cells};
ghost use Rattle.index_find.specs.Find.{blocks_for};
ghost use Rattle.list_gather.specs.Named.{has_cell};
ghost use Rattle.list_gather.specs.InnerGathered.{down, head_of};

use index_find::index;
use index_hash::{BLOCK_CELLS, BLOCK_ENTRIES};
use list_sort::cell_of;

// The values from 0 to 4,096: what names an entry of a block is its place in the block + 1.
const VALUES: usize = BLOCK_ENTRIES + 1;

// Notes each value of at most 4,096 that one of eight cells has. It is not inlined: the comparison of the eight cells in
// `note_cells` is then one of 16 bytes, and a list of 1 entry takes a third less time.
#[inline(never)]
fn note_run(run: &[u16; 8], seen: &mut [bool; VALUES])
    ensures { (length seen.new ≡ block_entries + 1) × ((v : ℕ) → v < block_entries + 1 → get_or seen.new v false ≡ (get_or seen.old v false || has_cell run.now v)) }
{
    for cell in run {
        let v = usize::from(*cell);
        if v <= BLOCK_ENTRIES {
            seen[v] = true;
        }
    }
}

// Notes each value from 1 to 4,096 that a cell of the block has. Cells name entries in the order of their homes; by what is
// noted the entries are then met from the last down.
//
// Eight cells at a time are compared with empty ones. Most are, where a block has few entries: a list of one entry still looks
// at all 8,192 cells of a block, which is nearly all that it costs.
fn note_cells(cells: &[u16; BLOCK_CELLS], seen: &mut [bool; VALUES])
    requires { (v : ℕ) → v < block_entries + 1 → get_or seen.old v false ≡ false }
    ensures { (v : ℕ) → 0 < v → v < block_entries + 1 → get_or seen.new v false ≡ has_cell cells.now v }
{
    for run in cells.as_chunks::<8>().0 {
        if *run != [0; 8] {
            note_run(run, seen);
        }
    }
}

// The index as it is lent, and how many of its entries are visible: those of 16 blocks at most, and the hash has their blocks.
#[derive(Clone, Copy)]
pub struct Visible<'a> {
    pub pages: &'a [u64],
    pub frames: &'a [u64],
    pub hash: &'a [u16],
    pub count: usize,
    ghost in_blocks: { count ≤ 65536 },
    ghost has_hash: { block_cells * blocks_for count ≤ length hash.now },
}

// What is gathered so far, in a list with room for more: nothing is allocated, so the entries are counted.
#[derive(Drop)]
struct Gathered<'a> {
    list: &'a mut [u16],
    count: usize,
    guesses: &'a mut [u16; 1024],
}

impl Gathered<'_> {
    ghost use Rattle.list_gather.specs.InnerGathering.{gathered, SameList, Guessed, Gathering};

    // An entry is put behind the others, unless the guess is a later one of its page.
    fn put(&mut self, pages: &[u64], entry: u16)
        requires { (self.old.count < length self.old.list.now) × Guessed self.old }
        ensures { SameList self.old self.new × (((gathered self.new ≡ gathered self.old) ⊎ (gathered self.new ≡ gathered self.old ++ (entry ∷ []))) × ((d : List ℕ) → Gathering pages.now self.old self.new (entry ∷ d) d 1 0)) }
    {
        let page = cell_of(pages, entry);
        let slot = (page % 1024) as usize;
        let guess = self.guesses[slot];
        if entry < guess && cell_of(pages, guess) == page {
            return;
        }
        self.list[self.count] = entry;
        self.count += 1;
        self.guesses[slot] = entry;
    }

    // Block k's named entries among the visible ones, from the last down.
    fn gather_block(&mut self, visible: &Visible<'_>, k: usize)
        requires { (k < blocks_for visible.now.count) × ((self.old.count + min visible.now.count (block_entries * k + block_entries) ≤ length self.old.list.now) × Guessed self.old) }
        ensures { SameList self.old self.new × Gathering visible.now.pages.now self.old self.new (down visible.now.hash.now (min visible.now.count (block_entries * k + block_entries))) (down visible.now.hash.now (block_entries * k)) (min visible.now.count (block_entries * k + block_entries)) (block_entries * k) }
    {
        let mut seen = [false; VALUES];
        note_cells(index::block_hash(visible.hash, k), &mut seen);
        let first = BLOCK_ENTRIES * k;
        let end = visible.count.min(first + BLOCK_ENTRIES);
        // By number: an entry's note and its page are found by it, and it is what is put.
        for n in (first..end).rev() {
            let noted = seen[n - first + 1];
            if noted {
                self.put(visible.pages, n as u16);
            }
        }
    }
}

impl Visible<'_> {
    // Block by block from the last visible one down. Answers how many entries are in the list; one may be left out where a
    // later one of its page is there.
    pub fn gather(&self, list: &mut [u16]) -> usize
        requires { self.now.count ≤ length list.old }
        ensures { (result ≤ self.now.count) × ((page : ℕ) → head_of self.now.pages.now page (take result list.new) ≡ head_of self.now.pages.now page (down self.now.hash.now self.now.count)) }
    {
        let mut guesses = [0; 1024];
        let mut gathered = Gathered {
            list,
            count: 0,
            guesses: &mut guesses,
        };
        // By number: a block's entries and its hash cells are found by it.
        for k in (0..self.count.div_ceil(BLOCK_ENTRIES)).rev() {
            gathered.gather_block(self, k);
        }
        gathered.count
    }
}
