// The calls that change the index, in numbers.
ghost use Rattle.std.specs.Prelude.{◌≡◌, not, eqb};
ghost use Rattle.index_record.specs.Record.{record_frame, record_answer};
ghost use Rattle.index_record.specs.Rollback.{rollback_frames, rollback_answer};
ghost use Rattle.c_index_replies.specs.IndexReply.{reply_of, IndexReplied};

use index_record::record::Recorded;
use index_record::{record, rollback};
use wal_types::Header;
use wal_types::refusal::Refusal;
use wal_types::settings::IndexSettings;

// The answer of a record or a rollback in numbers. refusal: 0, or the number of the refusal. answer: 1 stored, 0 dropped;
// for a rollback the kept length.
#[repr(C)]
#[derive(Clone, Copy)]
pub struct IndexReply {
    pub refusal: u32,
    pub answer: u32,
}

impl From<Result<Recorded, Refusal>> for IndexReply {
    ghost from_gives = { λ recorded result. result ≡ reply_of (record_answer recorded) };

    fn from(recorded: Result<Recorded, Refusal>) -> IndexReply {
        match recorded {
            Ok(Recorded::Stored) => IndexReply {
                refusal: 0,
                answer: 1,
            },
            Ok(Recorded::Dropped) => IndexReply {
                refusal: 0,
                answer: 0,
            },
            Err(refusal) => IndexReply {
                refusal: u32::from(refusal),
                answer: 0, // no record
            },
        }
    }
}

impl From<Result<u32, Refusal>> for IndexReply {
    ghost from_gives = { λ rolled_back result. result ≡ reply_of (rollback_answer rolled_back) };

    fn from(rolled_back: Result<u32, Refusal>) -> IndexReply {
        match rolled_back {
            Ok(len) => IndexReply {
                refusal: 0,
                answer: len,
            },
            Err(refused) => IndexReply {
                refusal: u32::from(refused),
                answer: 0, // nothing kept
            },
        }
    }
}

pub fn record_frame(
    settings: IndexSettings,
    header: &mut Header,
    pages: &mut [u64],
    frames: &mut [u64],
    hash: &mut [u16],
    page_id: u64,
    frame_id: u64,
    grow: u32,
) -> IndexReply
    ensures { IndexReplied (record_frame settings.capacity settings.max_blocks page_id frame_id (not (eqb grow 0))) header.old pages.old frames.old hash.old result header.new pages.new frames.new hash.new }
{
    IndexReply::from(record::record_frame(
        settings,
        header,
        pages,
        frames,
        hash,
        page_id,
        frame_id,
        grow != 0,
    ))
}

pub fn rollback_frames(
    settings: IndexSettings,
    header: &mut Header,
    pages: &[u64],
    frames: &[u64],
    hash: &mut [u16],
    max_frame: u64,
) -> IndexReply
    ensures { IndexReplied (rollback_frames settings.capacity settings.max_blocks max_frame) header.old pages.now frames.now hash.old result header.new pages.now frames.now hash.new }
{
    IndexReply::from(rollback::rollback_frames(settings, header, pages, frames, hash, max_frame))
}
