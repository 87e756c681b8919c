// The first entry of each page, if its frame is within the bounds; and the pairs of such entries.
ghost use Rattle.std.specs.Prelude.{◌≡◌, [], ◌∷◌, ◌++◌, map, ◌+◌, ◌<◌, ◌≤◌, length, get_or, take, drop};
ghost use Rattle.wal_types.specs.Settings.{within};
ghost use Rattle.list_choose.specs.Chosen.{firsts};
ghost use Rattle.list_choose.specs.InnerChosen.{listed, chosen, SameList};

use list_sort::cell_of;

// The entries' frames, and the bounds within which a frame is listed.
#[derive(Clone, Copy)]
pub struct FrameBounds<'a> {
    pub frames: &'a [u64],
    pub min_frame: u64,
    pub max_frame: u64,
}

impl FrameBounds<'_> {
    // Whether the entry's frame is within the bounds.
    fn has(&self, entry: u16) -> bool
        ensures { result ≡ within self.now.min_frame self.now.max_frame (get_or self.now.frames.now entry 0) }
    {
        (self.min_frame..=self.max_frame).contains(&cell_of(self.frames, entry))
    }
}

// What is chosen so far, in a list with room for more: nothing is allocated, so the entries are counted.
#[derive(Drop)]
struct Chosen<'a> {
    list: &'a mut [u16],
    count: usize,
}

impl Chosen<'_> {
    // An entry is put behind the others, if its frame is within the bounds.
    #[tactic(auto, using(std::proofs::lemmas::List::take_more_set), unfolding(crate::specs::Chosen::in_bounds))]
    fn put(&mut self, bounds: &FrameBounds<'_>, entry: u16)
        requires { self.old.count < length self.old.list.now }
        ensures { SameList self.old self.new × ((self.new.count ≤ self.old.count + 1) × (chosen self.new ≡ chosen self.old ++ listed bounds.now (entry ∷ []))) }
    {
        if bounds.has(entry) {
            self.list[self.count] = entry;
            self.count += 1;
        }
    }
}

// The first of each run of one page, if its frame is within the bounds. No later one of the run is taken in its place: its frame
// is older. Entries that the guesses of the gathering let through twice end here. Answers how many are in the list.
pub fn choose(pages: &[u64], bounds: &FrameBounds<'_>, gathered: &[u16], list: &mut [u16]) -> usize
    requires { length gathered.now ≤ length list.old }
    ensures { (result ≤ length gathered.now) × (take result list.new ≡ listed bounds.now (firsts pages.now gathered.now)) }
{
    let Some((first, rest)) = gathered.split_first() else {
        return 0;
    };
    let mut chosen = Chosen { list, count: 0 };
    let mut last = cell_of(pages, *first);
    chosen.put(bounds, *first);
    for entry in rest {
        let page = cell_of(pages, *entry);
        if page == last {
            continue;
        }
        last = page;
        chosen.put(bounds, *entry);
    }
    chosen.count
}

// The pairs of the entries, to the first output cells.
pub fn write_pairs(
    pages: &[u64],
    frames: &[u64],
    entries: &[u16],
    out_pages: &mut [u64],
    out_frames: &mut [u64],
)
    requires { (length entries.now ≤ length out_pages.old) × (length entries.now ≤ length out_frames.old) }
    ensures { (out_pages.new ≡ map (λ e. get_or pages.now e 0) entries.now ++ drop (length entries.now) out_pages.old) × (out_frames.new ≡ map (λ e. get_or frames.now e 0) entries.now ++ drop (length entries.now) out_frames.old) }
{
    // By place: of what a zip writes through `iter_mut` a proof knows no elements.
    for (i, entry) in entries.iter().enumerate() {
        out_pages[i] = cell_of(pages, *entry);
        out_frames[i] = cell_of(frames, *entry);
    }
}
