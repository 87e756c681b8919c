// The nearest frame of a page to a given frame.
ghost use Rattle.std.specs.Prelude.{◌≡◌, ◌≤◌, length};
ghost use Rattle.index_find.specs.Index.{EntriesCall};
ghost use Rattle.index_scan.specs.Scan.{scan_answer};
ghost use Rattle.index_scan.specs.Nearest.{distance, is_nearer, nearer, nearest_frame};

use crate::search::{LOOK, Search};
use index_find::index;
use wal_types::Header;
use wal_types::refusal::Refusal;
use wal_types::settings::IndexSettings;

// How far two frames are apart: the lesser is taken from the greater, so that nothing wraps.
fn distance(a: u64, b: u64) -> u64
    ensures { result ≡ distance a b }
{
    a.abs_diff(b)
}

// Whether a frame is nearer to the given one than another, or as near and lower. (Compared as pairs, an entry of the page
// takes a fourth longer.)
fn is_nearer(to_frame: u64, frame_id: u64, other: u64) -> bool
    ensures { result ≡ is_nearer to_frame frame_id other }
{
    let away = distance(to_frame, frame_id);
    let other_away = distance(to_frame, other);
    away < other_away || (away == other_away && frame_id < other)
}

// The nearer of a frame and the nearest so far.
fn nearer(to_frame: u64, frame_id: u64, nearest: Option<u64>) -> u64
    ensures { Some result ≡ nearer to_frame (Some frame_id) nearest }
{
    match nearest {
        Some(other) if !is_nearer(to_frame, frame_id, other) => other,
        _ => frame_id,
    }
}

impl Search<'_> {
    ghost use Rattle.index_scan.specs.InnerSearch.{nearest};

    // The nearest of what is found so far and the page's frames of the entries from the one at `from` up to `end`.
    fn nearest_in(&self, from: usize, end: usize, to_frame: u64, so_far: Option<u64>) -> Option<u64>
        requires { (from ≤ end) × (end ≤ length self.now.pages.now) }
        ensures { so_far ≡ nearest self.now to_frame from → result ≡ nearest self.now to_frame end }
    {
        let mut found = so_far;
        // By place: the page and the frame of an entry are read at the same one, and a zip would cut both lists to the part first.
        for n in from..end {
            if self.pages[n] == self.page_id {
                found = Some(nearer(to_frame, self.frames[n], found));
            }
        }
        found
    }

    // The nearest frame of the page.
    fn nearest(&self, to_frame: u64) -> Option<u64>
        ensures { result ≡ nearest self.now to_frame (length self.now.pages.now) }
    {
        // Looks by number: `as_chunks` takes a fourth longer for an entry.
        let len = self.pages.len();
        let looks = len / LOOK;
        let mut found = None;
        for look in 0..looks {
            let from = look * LOOK;
            if !self.are_others(from) {
                found = self.nearest_in(from, from + LOOK, to_frame, found);
            }
        }
        self.nearest_in(looks * LOOK, len, to_frame, found)
    }
}

// The nearest frame of the page to a given frame, the lower of two that are as near.
pub fn nearest_frame(
    settings: IndexSettings,
    header: Header,
    pages: &[u64],
    frames: &[u64],
    page_id: u64,
    to_frame: u64,
) -> Result<Option<u64>, Refusal>
    ensures { EntriesCall (nearest_frame settings.capacity settings.max_blocks page_id to_frame) header pages.now frames.now (scan_answer result) }
{
    index::check_entries(settings, header, pages, frames)?;
    let len = header.frame_index_len as usize;
    let search = Search {
        pages: &pages[..len],
        frames: &frames[..len],
        page_id,
    };
    Ok(search.nearest(to_frame))
}
