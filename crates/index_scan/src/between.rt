// A frame of a page between two frames.
ghost use Rattle.std.specs.Prelude.{◌≡◌, ◌≤◌, length};
ghost use Rattle.index_find.specs.Index.{EntriesCall};
ghost use Rattle.index_find.specs.Find.{else_look};
ghost use Rattle.index_grown.specs.Entries.{entries_of};
ghost use Rattle.index_scan.specs.Scan.{scan_answer};
ghost use Rattle.index_scan.specs.Between.{frame_between, Undecided, BetweenTold};

use crate::search::{LOOK, Search};
use index_find::index;
use wal_types::Header;
use wal_types::refusal::Refusal;
use wal_types::settings::IndexSettings;

impl Search<'_> {
    ghost use Rattle.index_scan.specs.InnerSearch.{last_between};

    // The last of the entries from the one at `from` up to `end` that is of the page and between the bounds, both included.
    fn last_between_in(
        &self,
        from: usize,
        end: usize,
        min_frame: u64,
        max_frame: u64,
    ) -> Option<u64>
        requires { (from ≤ end) × (end ≤ length self.now.pages.now) }
        ensures { else_look result (last_between self.now min_frame max_frame from) ≡ last_between self.now min_frame max_frame end }
    {
        // By place: the page and the frame of an entry are read at the same one, and a zip would cut both lists to the part first.
        for n in (from..end).rev() {
            if self.pages[n] == self.page_id {
                let frame_id = self.frames[n];
                if (min_frame..=max_frame).contains(&frame_id) {
                    return Some(frame_id);
                }
            }
        }
        None
    }

    // The last of the entries that is of the page and between the bounds. What is asked for was mostly written lately: the
    // search goes from the last entry down and ends at the first one that fits.
    fn last_between(&self, min_frame: u64, max_frame: u64) -> Option<u64>
        ensures { result ≡ last_between self.now min_frame max_frame (length self.now.pages.now) }
    {
        // A `for` over the looks takes a third longer for an entry, and `split_last_chunk` a fourth.
        let mut n = self.pages.len();
        while LOOK <= n {
            n -= LOOK;
            if !self.are_others(n) {
                let found = self.last_between_in(n, n + LOOK, min_frame, max_frame);
                if found.is_some() {
                    return found;
                }
            }
        }
        self.last_between_in(0, n, min_frame, max_frame)
    }
}

// A frame of the page from min_frame to max_frame. Which one, where there are several, is not promised.
pub fn frame_between(
    settings: IndexSettings,
    header: Header,
    pages: &[u64],
    frames: &[u64],
    page_id: u64,
    min_frame: u64,
    max_frame: u64,
) -> Result<Option<u64>, Refusal>
    ensures { Undecided (frame_between settings.capacity settings.max_blocks page_id min_frame max_frame) (λ call. EntriesCall call header pages.now frames.now (scan_answer result)) × BetweenTold (entries_of header.frame_index_len pages.now frames.now) page_id min_frame max_frame result }
{
    index::check_entries(settings, header, pages, frames)?;
    let len = header.frame_index_len as usize;
    let search = Search {
        pages: &pages[..len],
        frames: &frames[..len],
        page_id,
    };
    Ok(search.last_between(min_frame, max_frame))
}
