// The copy-back limit, added by the port: the frame up to which a checkpoint may copy frames back. It passes no live
// reader's mark, and while a reader of the database file is live, no frame that is not copied already. It is not in the
// Rust.
ghost use Rattle.std.specs.Prelude.{◌≡◌};
ghost use Rattle.reader_limit.specs.Limit.{limit_of, held_back, copy_back_limit, limit_answer};
ghost use Rattle.reader_limit.specs.Inner.{LentLimit};

use reader_floor::floor;
use reader_slots::slots::SharedSlots;
use wal_types::refusal::Refusal;
use wal_types::settings::ReaderSettings;

// The lesser of the published frame and the floor; the published frame if there is no floor.
fn limit_by_floor(max_frame: u64, floor: Option<u64>) -> u64
    ensures { result ≡ limit_of max_frame floor }
{
    max_frame.min(floor.unwrap_or(max_frame))
}

// The lesser of that and the number of frames already copied, if a reader of the database file is live.
fn limit_by_db_file(limit: u64, db_file_reader: bool, nbackfills: u64) -> u64
    ensures { result ≡ held_back db_file_reader nbackfills limit }
{
    if db_file_reader {
        limit.min(nbackfills)
    } else {
        limit
    }
}

// max_frame is the published frame, nbackfills the number of frames already copied. It reclaims and refuses as the
// floor does.
#[tactic(auto, using(reader_floor::proofs::Floored::passed))]
pub fn copy_back_limit(
    settings: ReaderSettings,
    max_frame: u64,
    nbackfills: u64,
    slots: &mut SharedSlots<'_>,
    local_readers: &[u64],
    card: &[u8],
) -> Result<u64, Refusal>
    ensures { LentLimit (copy_back_limit settings.n settings.mode card.now) max_frame nbackfills slots.old local_readers.now (limit_answer result) slots.new }
{
    floor::check_all_slots(settings, slots, local_readers, card)?;
    let marks = floor::live_marks(settings, slots, local_readers, card);
    let limit = limit_by_floor(max_frame, marks.floor);
    Ok(limit_by_db_file(limit, marks.db_file_reader, nbackfills))
}
