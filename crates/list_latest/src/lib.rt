// iter_latest_frames: each page's latest entry with a frame of at most max, listed if its frame is at least min, by rising
// page. The entries that the hash names are gathered from the last down, sorted by page, and the first of each page is taken.
// All of it is counted before the first output cell is written: a list that is refused for too few of them (5) has written none.
#![tactic(auto)]

ghost use Rattle.std.specs.Prelude.{◌≡◌, ◌≤◌, length, take};
ghost use Rattle.wal_types.specs.Memory.{Memory, Process};
ghost use Rattle.index_find.specs.Index.{index_in};
ghost use Rattle.list_latest.specs.Latest.{iter_latest_frames};
ghost use Rattle.list_latest.specs.InnerListing.{to_list};
ghost use Rattle.list_latest.specs.InnerResult.{Lists};
ghost use Rattle.list_latest.specs.InnerWritten.{Writes};

mod listing;

use crate::listing::Listing;
use index_find::{find, index};
use index_hash::BLOCK_ENTRIES;
use list_choose::choose::{self, FrameBounds};
use list_gather::gather::Visible;
use wal_types::Header;
use wal_types::refusal::Refusal;
use wal_types::settings::IndexSettings;

// Every block's entries.
const ALL_ENTRIES: usize = 65536;

impl Listing<'_> {
    // The entries to be listed: they come into the spare.
    fn latest_entries(&self, list: &mut [u16], spare: &mut [u16]) -> usize
        requires { (self.now.visible.count ≤ length list.old) × (self.now.visible.count ≤ length spare.old) }
        ensures { (result ≤ self.now.visible.count) × (take result spare.new ≡ to_list self.now) }
    {
        let count = self.visible.gather(list);
        let gathered = &mut list[..count];
        list_sort::sort_by_page(self.visible.pages, gathered, spare);
        let bounds = FrameBounds {
            frames: self.visible.frames,
            min_frame: self.min_frame,
            max_frame: self.max_frame,
        };
        choose::choose(self.visible.pages, &bounds, gathered, spare)
    }

    // The list, with lists to work in that have room for all visible entries.
    fn write_pairs(
        &self,
        out_pages: &mut [u64],
        out_frames: &mut [u64],
        list: &mut [u16],
        spare: &mut [u16],
    ) -> Result<usize, Refusal>
        requires { (self.now.visible.count ≤ length list.old) × (self.now.visible.count ≤ length spare.old) }
        ensures { Writes self.now.visible.pages.now self.now.visible.frames.now (to_list self.now) result out_pages.old out_frames.old out_pages.new out_frames.new }
    {
        let count = self.latest_entries(list, spare);
        if out_pages.len() < count || out_frames.len() < count {
            return Err(Refusal::ShortList);
        }
        choose::write_pairs(
            self.visible.pages,
            self.visible.frames,
            &spare[..count],
            out_pages,
            out_frames,
        );
        Ok(count)
    }

    // The list, with room for so many entries. All room is on the stack (less than 300 KB): nothing is allocated, so no call can
    // fail for it.
    fn write_with_room<const N: usize>(
        &self,
        out_pages: &mut [u64],
        out_frames: &mut [u64],
    ) -> Result<usize, Refusal>
        requires { (self.now.visible.count ≤ N) × (N ≤ 65536) }
        ensures { Writes self.now.visible.pages.now self.now.visible.frames.now (to_list self.now) result out_pages.old out_frames.old out_pages.new out_frames.new }
    {
        let mut list = [0; N];
        let mut spare = [0; N];
        self.write_pairs(out_pages, out_frames, &mut list, &mut spare)
    }
}

// Each page's latest entry with frame ≤ max, listed if its frame is ≥ min, by rising page. Answers how many pairs are in the
// first output cells.
//
// One block's entries have room of their own: an array is cleared where it is made, and room for every block's entries is
// 262,144 bytes. With that room alone a list of 1 or 10 entries took more than twice as long, longer than the Rust's.
pub fn iter_latest_frames(
    settings: IndexSettings,
    header: Header,
    pages: &[u64],
    frames: &[u64],
    hash: &[u16],
    min_frame: u64,
    max_frame: u64,
    out_pages: &mut [u64],
    out_frames: &mut [u64],
) -> Result<usize, Refusal>
    ensures { (z : Memory) (p : Process) → Lists (iter_latest_frames settings.capacity settings.max_blocks min_frame max_frame (length out_pages.old) (length out_frames.old)) (index_in z header pages.now frames.now hash.now) p result out_pages.old out_frames.old out_pages.new out_frames.new }
{
    index::check_index(settings, header, pages, frames, hash)?;
    let len = header.frame_index_len as usize;
    let count = find::visible_frame_index_slots(&frames[..len], max_frame);
    let visible = Visible {
        pages,
        frames,
        hash,
        count,
    };
    let listing = Listing {
        visible,
        min_frame,
        max_frame,
    };
    if count <= BLOCK_ENTRIES {
        listing.write_with_room::<BLOCK_ENTRIES>(out_pages, out_frames)
    } else {
        listing.write_with_room::<ALL_ENTRIES>(out_pages, out_frames)
    }
}
