// The calls on the frame index. Those that change it have the header lent, and store over it only where a cell of it
// changes; a lookup, a search and a list are given it by value.
ghost use Rattle.std.specs.Prelude.{not, eqb, length};
ghost use Rattle.index_record.specs.Record.{record_frame};
ghost use Rattle.index_record.specs.Rollback.{rollback_frames};
ghost use Rattle.index_find.specs.Find.{find_frame, find_looked};
ghost use Rattle.list_latest.specs.Latest.{iter_latest_frames};
ghost use Rattle.index_grown.specs.Entries.{entries_of};
ghost use Rattle.index_scan.specs.Between.{frame_between, Undecided};
ghost use Rattle.index_scan.specs.Nearest.{nearest_frame};
ghost use Rattle.c_index_replies.specs.IndexReply.{IndexReplied};
ghost use Rattle.c_index_replies.specs.LookupReply.{watermark_given};
ghost use Rattle.c_index.specs.LookupReplied.{FindReplied, ListReplied};
ghost use Rattle.c_index.specs.SearchReplied.{FrameReplied, BetweenReplied};

use c_index_replies::index_reply::IndexReply;
use c_index_replies::lookup_reply::{FindReply, ListReply};
use c_index_replies::search_reply::FrameReply;
use c_index_replies::{index_reply, lookup_reply};
use index_find::find;
use index_scan::{between, nearest};
use wal_types::Header;
use wal_types::settings::IndexSettings;

// Appends the entry (page_id, frame_id). grow is the file's answer to a growth by one block: 0 no, else yes.
#[unsafe(no_mangle)]
pub extern "C" fn wal_record_frame(
    capacity: u32,
    max_blocks: u32,
    header: &mut Header,
    pages: &mut [u64],
    frames: &mut [u64],
    hash: &mut [u16],
    page_id: u64,
    frame_id: u64,
    grow: u32,
) -> IndexReply
    ensures { IndexReplied (record_frame capacity max_blocks page_id frame_id (not (eqb grow 0))) header.old pages.old frames.old hash.old result header.new pages.new frames.new hash.new }
{
    let settings = IndexSettings {
        capacity,
        max_blocks,
    };
    index_reply::record_frame(
        settings, header, pages, frames, hash, page_id, frame_id, grow,
    )
}

// Drops the entries from the end whose frame is above max_frame.
#[unsafe(no_mangle)]
pub extern "C" fn wal_rollback_frames(
    capacity: u32,
    max_blocks: u32,
    header: &mut Header,
    pages: &[u64],
    frames: &[u64],
    hash: &mut [u16],
    max_frame: u64,
) -> IndexReply
    ensures { IndexReplied (rollback_frames capacity max_blocks max_frame) header.old pages.now frames.now hash.old result header.new pages.now frames.now hash.new }
{
    let settings = IndexSettings {
        capacity,
        max_blocks,
    };
    index_reply::rollback_frames(settings, header, pages, frames, hash, max_frame)
}

// Looks up the latest frame of a page, and counts the hash cells that it looks at. has_watermark: 0 if there is none, else watermark is it.
#[unsafe(no_mangle)]
pub extern "C" fn wal_find_frame(
    capacity: u32,
    max_blocks: u32,
    header: Header,
    pages: &[u64],
    frames: &[u64],
    hash: &[u16],
    page_id: u64,
    min_frame: u64,
    max_frame: u64,
    has_watermark: u32,
    watermark: u64,
) -> FindReply
    ensures { FindReplied (find_frame capacity max_blocks page_id min_frame max_frame (watermark_given has_watermark watermark)) (find_looked capacity max_blocks page_id min_frame max_frame (watermark_given has_watermark watermark)) header pages.now frames.now hash.now result }
{
    let settings = IndexSettings {
        capacity,
        max_blocks,
    };
    let frame_watermark = lookup_reply::watermark_of(has_watermark, watermark);
    let looked = find::find_frame(
        settings,
        header,
        pages,
        frames,
        hash,
        page_id,
        min_frame,
        max_frame,
        frame_watermark,
    );
    FindReply::from(looked)
}

// Searches the entries for a frame of the page from min_frame to max_frame. Which one, where there are several, is undecided.
#[unsafe(no_mangle)]
pub extern "C" fn wal_frame_between(
    capacity: u32,
    max_blocks: u32,
    header: Header,
    pages: &[u64],
    frames: &[u64],
    page_id: u64,
    min_frame: u64,
    max_frame: u64,
) -> FrameReply
    ensures { Undecided (frame_between capacity max_blocks page_id min_frame max_frame) (λ call. FrameReplied call header pages.now frames.now result) × BetweenReplied (entries_of header.frame_index_len pages.now frames.now) page_id min_frame max_frame result }
{
    let settings = IndexSettings {
        capacity,
        max_blocks,
    };
    FrameReply::from(between::frame_between(
        settings, header, pages, frames, page_id, min_frame, max_frame,
    ))
}

// Searches the entries for the page's nearest frame to a given one: of two that are as near, the lower.
#[unsafe(no_mangle)]
pub extern "C" fn wal_nearest_frame(
    capacity: u32,
    max_blocks: u32,
    header: Header,
    pages: &[u64],
    frames: &[u64],
    page_id: u64,
    to_frame: u64,
) -> FrameReply
    ensures { FrameReplied (nearest_frame capacity max_blocks page_id to_frame) header pages.now frames.now result }
{
    let settings = IndexSettings {
        capacity,
        max_blocks,
    };
    FrameReply::from(nearest::nearest_frame(settings, header, pages, frames, page_id, to_frame))
}

// Lists each page's latest frame within the bounds, by rising page: pages to out_pages, frames to out_frames.
#[unsafe(no_mangle)]
pub extern "C" fn wal_iter_latest_frames(
    capacity: u32,
    max_blocks: u32,
    header: Header,
    pages: &[u64],
    frames: &[u64],
    hash: &[u16],
    min_frame: u64,
    max_frame: u64,
    out_pages: &mut [u64],
    out_frames: &mut [u64],
) -> ListReply
    ensures { ListReplied (iter_latest_frames capacity max_blocks min_frame max_frame (length out_pages.old) (length out_frames.old)) header pages.now frames.now hash.now result out_pages.old out_frames.old out_pages.new out_frames.new }
{
    let settings = IndexSettings {
        capacity,
        max_blocks,
    };
    let listed = list_latest::iter_latest_frames(
        settings, header, pages, frames, hash, min_frame, max_frame, out_pages, out_frames,
    );
    ListReply::from(listed)
}
