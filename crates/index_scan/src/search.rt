// What a search goes over, and its look at eight entries. It passes over most entries, and a loop over single ones has so few
// instructions that it takes one cycle for an entry or two, by where the linker puts it.
ghost use Rattle.std.specs.Prelude.{◌≡◌, not, true, ◌+◌, ◌<◌, ◌≤◌, eqb, length, get_or};
ghost use Rattle.index_search.specs.InnerRun.{All};
ghost use Rattle.index_scan.specs.InnerScan.{OtherPage};

// How many entries a look sees.
pub const LOOK: usize = 8;

// The entries' pages and frames, and the page that is looked for.
#[derive(Clone, Copy)]
pub struct Search<'a> {
    pub pages: &'a [u64],
    pub frames: &'a [u64],
    pub page_id: u64,
    ghost frame_of_each: { length frames.now ≡ length pages.now },
}

impl Search<'_> {
    // Whether the entries of a look, from this one on, are other pages'. All are compared, with no exit between them.
    pub fn are_others(&self, from: usize) -> bool
        requires { from + 8 ≤ length self.now.pages.now }
        ensures { result ≡ true → All (OtherPage self.now.pages.now self.now.page_id) from (from + 8) }
    {
        self.pages[from..from + LOOK]
            .iter()
            .fold(true, |others, page| others & (*page != self.page_id))
    }
}
