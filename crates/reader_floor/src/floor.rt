// min_active_reader_frame, the floor below which no live reader's mark lies, and has_active_db_file_reader. Both
// reclaim the dead slots that they meet. A failed probe (refusal 15) is looked for first, so that a refused call
// changes nothing. The pass over all slots tells both what the floor is and whether a reader of the database file is
// live; the copy-back limit asks for both.
ghost use Rattle.std.specs.Prelude.{◌≡◌, [], ◌∷◌};
ghost use Rattle.wal_types.specs.Refusal.{refused_number};
ghost use Rattle.reader_slots.specs.Search.{lowest_slot};
ghost use Rattle.reader_slots.specs.Inner.{AllHold, HoldSlots, LentCall};
ghost use Rattle.reader_probe.specs.Live.{looked_at};
ghost use Rattle.reader_probe.specs.Inner.{db_file_by, probe_refusal};
ghost use Rattle.reader_floor.specs.Floor.{min_active_reader_frame, has_active_db_file_reader, min_frame_answer, db_file_answer};
ghost use Rattle.reader_floor.specs.Inner.{lists_refusal, all_slots_refusal, MarksOf, DbFileOf};

use reader_probe::live::LiveMarks;
use reader_probe::{live, probe};
use reader_slots::slots;
use reader_slots::slots::SharedSlots;
use wal_types::DB_FILE_READER_FRAME;
use wal_types::refusal::Refusal;
use wal_types::settings::ReaderSettings;

// The refusals of a call that probes every slot. bitmap_len is how many words of the bitmap are lent.
#[tactic(auto, using(crate::proofs::Floored::early_number, crate::proofs::Floored::late_number, reader_slots::proofs::Calls::lengths_enough))]
pub fn all_slots_refusal(
    settings: ReaderSettings,
    bitmap_len: usize,
    reader_frames: &[u64],
    reader_owners: &[u64],
    local_readers: &[u64],
    card: &[u8],
) -> Result<(), Refusal>
    ensures { refused_number result ≡ lists_refusal settings card.now bitmap_len reader_frames.now reader_owners.now local_readers.now }
{
    slots::slots_refusal(
        settings.n,
        bitmap_len,
        reader_frames.len(),
        reader_owners.len(),
        local_readers.len(),
    )?;
    probe::check_floor(settings, reader_frames, reader_owners, local_readers, card)
}

// The same of lent slots.
#[tactic(auto, unfolding(crate::specs::Inner::all_slots_refusal, crate::specs::Inner::lists_refusal))]
pub fn check_all_slots(
    settings: ReaderSettings,
    slots: &SharedSlots<'_>,
    local_readers: &[u64],
    card: &[u8],
) -> Result<(), Refusal>
    ensures { refused_number result ≡ all_slots_refusal settings card.now slots.now local_readers.now }
{
    all_slots_refusal(
        settings,
        slots.bitmap.len(),
        slots.reader_frames,
        slots.reader_owners,
        local_readers,
        card,
    )
}

// The marks of all live slots, in one pass. (A for, as below: a proof knows nothing of a closure that stores.)
#[tactic(auto, using(crate::proofs::Live::marks_start, crate::proofs::Live::marks_end))]
pub fn live_marks(
    settings: ReaderSettings,
    slots: &mut SharedSlots<'_>,
    local_readers: &[u64],
    card: &[u8],
) -> LiveMarks
    requires { HoldSlots settings.n slots.old (local_readers.now ∷ card.now ∷ []) }
    ensures { MarksOf settings card.now slots.old local_readers.now result slots.new }
{
    let mut marks = LiveMarks {
        floor: None,
        db_file_reader: false,
    };
    for slot in 0..settings.n {
        let live = live::live_reader_frame(settings.mode, slots, local_readers, card, slot);
        marks = live::lower_marks(marks, live);
    }
    marks
}

// The least mark above 0 of all live readers: frames above it cannot be copied back. Readers of the database file alone
// are left out.
#[tactic(auto, using(crate::proofs::Floored::passed))]
pub fn min_active_reader_frame(
    settings: ReaderSettings,
    slots: &mut SharedSlots<'_>,
    local_readers: &[u64],
    card: &[u8],
) -> Result<Option<u64>, Refusal>
    ensures { LentCall (min_active_reader_frame settings.n settings.mode card.now) slots.old local_readers.now (min_frame_answer result) slots.new local_readers.now }
{
    check_all_slots(settings, slots, local_readers, card)?;
    let marks = live_marks(settings, slots, local_readers, card);
    Ok(marks.floor)
}

// Whether a live slot has mark 0. It stops at the first one.
#[tactic(auto, using(crate::proofs::Live::db_file_start, crate::proofs::Live::db_file_end))]
fn finds_db_file_reader(
    settings: ReaderSettings,
    slots: &mut SharedSlots<'_>,
    local_readers: &[u64],
    card: &[u8],
) -> bool
    requires { HoldSlots settings.n slots.old (local_readers.now ∷ card.now ∷ []) }
    ensures { DbFileOf settings card.now slots.old local_readers.now result slots.new }
{
    for slot in 0..settings.n {
        let live = live::live_reader_frame(settings.mode, slots, local_readers, card, slot);
        if live == Some(DB_FILE_READER_FRAME) {
            return true;
        }
    }
    false
}

// Refusal 14 or 15 of has_active_db_file_reader.
fn check_db_file_probes(
    settings: ReaderSettings,
    slots: &SharedSlots<'_>,
    local_readers: &[u64],
    card: &[u8],
) -> Result<(), Refusal>
    requires { AllHold settings.n (slots.now.reader_frames.now ∷ slots.now.reader_owners.now ∷ local_readers.now ∷ []) }
    ensures { refused_number result ≡ probe_refusal settings card.now slots.now.reader_frames.now slots.now.reader_owners.now local_readers.now (looked_at settings.n (lowest_slot (db_file_by settings.mode card.now slots.now.reader_frames.now slots.now.reader_owners.now local_readers.now) settings.n 0)) }
{
    probe::check_db_file(
        settings,
        slots.reader_frames,
        slots.reader_owners,
        local_readers,
        card,
    )
}

// Whether a reader in any process reads only the database file.
#[tactic(auto, using(crate::proofs::Floored::db_file_room, crate::proofs::Floored::db_file_told, reader_slots::proofs::Calls::enough))]
pub fn has_active_db_file_reader(
    settings: ReaderSettings,
    slots: &mut SharedSlots<'_>,
    local_readers: &[u64],
    card: &[u8],
) -> Result<bool, Refusal>
    ensures { LentCall (has_active_db_file_reader settings.n settings.mode card.now) slots.old local_readers.now (db_file_answer result) slots.new local_readers.now }
{
    slots::check_slots(settings.n, slots, local_readers)?;
    check_db_file_probes(settings, slots, local_readers, card)?;
    Ok(finds_db_file_reader(settings, slots, local_readers, card))
}
