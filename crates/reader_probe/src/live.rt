// One slot, as the floor, the copy-back limit and has_active_db_file_reader meet it: skipped, live, or dead and then
// reclaimed.
ghost use Rattle.std.specs.Prelude.{◌≡◌, not, ◌||◌, [], ◌∷◌, eqb, get_or};
ghost use Rattle.reader_slots.specs.Inner.{HoldSlot, emptied_if, SlotsBecome};
ghost use Rattle.reader_probe.specs.Live.{dead};
ghost use Rattle.reader_probe.specs.Inner.{skipped_cell, live_by, live_frame, marks_with};

use reader_slots::slots;
use reader_slots::slots::SharedSlots;
use wal_types::byte_lock::ByteLock;
use wal_types::{
    DB_FILE_READER_FRAME, SharedOwnerRecord, SharedWalOwnershipMode, UNUSED_READER_FRAME,
};

// What the marks of live slots come to: the floor, which is the least one above 0 if there is one, and whether one of
// them is 0.
#[derive(Clone, Copy)]
pub struct LiveMarks {
    pub floor: Option<u64>,
    pub db_file_reader: bool,
}

// A slot without a reader: frame UNUSED, or in ProcessScopedFcntl mode no owner.
pub fn is_skipped(mode: SharedWalOwnershipMode, frame: u64, owner: SharedOwnerRecord) -> bool
    ensures { result ≡ skipped_cell mode frame owner.0 }
{
    frame == UNUSED_READER_FRAME || slots::is_ownerless(mode, owner)
}

// Whether the reader of a slot is live: the slot is held here, or its byte lock is not granted. A dead reader's slot can
// be locked.
pub fn is_live(local_owner: SharedOwnerRecord, card: u8) -> bool
    ensures { result ≡ (not (eqb local_owner.0 0) || not (eqb card 1)) }
{
    local_owner != SharedOwnerRecord::UNOWNED || card != ByteLock::Granted as u8
}

// One slot's mark if the slot is live. A dead slot is reclaimed.
pub fn live_reader_frame(
    mode: SharedWalOwnershipMode,
    slots: &mut SharedSlots<'_>,
    local_readers: &[u64],
    card: &[u8],
    slot: usize,
) -> Option<u64>
    requires { HoldSlot slot slots.old (local_readers.now ∷ card.now ∷ []) }
    ensures { (result ≡ live_frame (live_by mode card.now slots.old local_readers.now slot) (get_or slots.old.reader_frames.now slot 0)) × SlotsBecome (λ m p. emptied_if mode (dead mode card.now p m slot) slot m) slots.old local_readers.now slots.new }
{
    let frame = slots.reader_frames[slot];
    if is_skipped(mode, frame, SharedOwnerRecord(slots.reader_owners[slot])) {
        return None;
    }
    if is_live(SharedOwnerRecord(local_readers[slot]), card[slot]) {
        return Some(frame);
    }
    slots.empty_slot(mode, slot);
    None
}

// The marks of live slots so far, and one more slot's. Mark 0 is a database file reader and never the floor.
pub fn lower_marks(marks: LiveMarks, live: Option<u64>) -> LiveMarks
    ensures { result ≡ marks_with marks live }
{
    match live {
        None => marks,
        Some(DB_FILE_READER_FRAME) => LiveMarks {
            db_file_reader: true,
            ..marks
        },
        Some(frame) => LiveMarks {
            floor: Some(marks.floor.unwrap_or(frame).min(frame)),
            ..marks
        },
    }
}
