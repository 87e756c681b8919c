// The calls on reader slots and shared marks.
ghost use Rattle.std.specs.Prelude.{◌≡◌};
ghost use Rattle.reader_register.specs.Register.{register_reader};
ghost use Rattle.reader_moves.specs.Update.{update_reader, unregister_reader};
ghost use Rattle.reader_floor.specs.Floor.{min_active_reader_frame, has_active_db_file_reader};
ghost use Rattle.reader_limit.specs.Limit.{copy_back_limit};
ghost use Rattle.reader_shared.specs.Shared.{register_reader_for_snapshot, unregister_reader_for_snapshot};
ghost use Rattle.reader_shared.specs.Inner.{share_change};
ghost use Rattle.c_numbers.specs.Reply.{refusal_number};
ghost use Rattle.wal_types.specs.Mode.{mode_given};
ghost use Rattle.c_numbers.specs.Mode.{with_mode};
ghost use Rattle.c_reader_replies.specs.ReaderReply.{reader_reply, floor_reply, db_file_reply, limit_reply};
ghost use Rattle.c_readers.specs.ReaderReplied.{SlotsReplied, MoveReplied, RegistryReplied, LimitReplied};

use c_reader_replies::{DbFileReply, FloorReply, LimitReply, ReaderReply};
use reader_floor::floor;
use reader_limit::limit;
use reader_marks::MarkInRegistry;
use reader_moves::update;
use reader_moves::update::SlotInRegistry;
use reader_register::register;
use reader_shared::shared::{RecordChange, SharePlan};
use reader_slots::slots::SharedSlots;
use wal_types::refusal::Refusal;
use wal_types::settings::Reader;
use wal_types::{SharedOwnerRecord, SharedReadMark, refusal};

// Takes a reader slot at a mark. card is the byte locks' answers, one for each slot: 0 busy, 1 granted, 2 error.
pub fn wal_register_reader(
    n: usize,
    mode: u32,
    bitmap: &mut [u64],
    reader_frames: &mut [u64],
    reader_owners: &mut [u64],
    local_readers: &mut [u64],
    card: &[u8],
    owner: u64,
    mark: u64,
) -> ReaderReply
    ensures { SlotsReplied reader_reply (with_mode (mode_given mode) (λ given. register_reader n given owner mark card.now)) bitmap.old reader_frames.old reader_owners.old local_readers.old result bitmap.new reader_frames.new reader_owners.new local_readers.new }
{
    let reader = Reader {
        owner: SharedOwnerRecord(owner),
        mark,
    };
    let settings = c_reader_replies::settings_of(n, mode);
    let mut slots = SharedSlots {
        bitmap,
        reader_frames,
        reader_owners,
    };
    let answer = register::register_reader(settings, &mut slots, local_readers, card, reader);
    c_reader_replies::register_told(answer, reader)
}

// Moves a reader to another mark.
pub fn wal_update_reader(
    n: usize,
    reader_frames: &mut [u64],
    reader_owners: &[u64],
    registry: &[SharedReadMark],
    slot: usize,
    owner: u64,
    mark: u64,
) -> ReaderReply
    ensures { MoveReplied reader_reply (update_reader n slot owner mark) reader_frames.old reader_owners.now registry.now result reader_frames.new }
{
    let reader = Reader {
        owner: SharedOwnerRecord(owner),
        mark,
    };
    let in_registry = SlotInRegistry {
        records: registry.len(),
        is_shared: reader_registry::slot_is_shared(registry, n, slot),
    };
    let answer = update::update_core(n, reader_frames, reader_owners, slot, reader, in_registry);
    c_reader_replies::move_told(answer, slot, reader)
}

// Releases a reader's slot. Answers 0, or the number of the refusal.
pub fn wal_unregister_reader(
    n: usize,
    mode: u32,
    bitmap: &mut [u64],
    reader_frames: &mut [u64],
    reader_owners: &mut [u64],
    local_readers: &mut [u64],
    registry: &[SharedReadMark],
    slot: usize,
    owner: u64,
) -> u32
    ensures { RegistryReplied refusal_number (with_mode (mode_given mode) (λ given. unregister_reader n given slot owner)) bitmap.old reader_frames.old reader_owners.old local_readers.old registry.now result bitmap.new reader_frames.new reader_owners.new local_readers.new registry.now }
{
    let settings = c_reader_replies::settings_of(n, mode);
    let in_registry = SlotInRegistry {
        records: registry.len(),
        is_shared: reader_registry::slot_is_shared(registry, settings.n, slot),
    };
    let mut slots = SharedSlots {
        bitmap,
        reader_frames,
        reader_owners,
    };
    let released = update::unregister_core(
        settings,
        &mut slots,
        local_readers,
        slot,
        SharedOwnerRecord(owner),
        in_registry,
    );
    refusal::refusal_told(released)
}

// Makes the change of the registry that a shared registration plans, if it takes a slot.
fn change_registry(registry: &mut [SharedReadMark], answer: Result<Option<SharePlan>, Refusal>)
    ensures { registry.new ≡ share_change answer registry.old }
{
    let Ok(Some(plan)) = answer else {
        return;
    };
    match plan.change {
        RecordChange::Retained(at) => reader_registry::retain_shared_snapshot_reader(registry, at),
        RecordChange::Published(at) => {
            reader_registry::publish_shared_snapshot_reader(registry, at, plan.taken)
        }
    }
}

// Takes a reader slot at a mark, or joins the connections of this process that share the mark. card is as in
// wal_register_reader.
pub fn wal_register_reader_for_snapshot(
    n: usize,
    mode: u32,
    bitmap: &mut [u64],
    reader_frames: &mut [u64],
    reader_owners: &mut [u64],
    local_readers: &mut [u64],
    registry: &mut [SharedReadMark],
    card: &[u8],
    owner: u64,
    mark: u64,
) -> ReaderReply
    ensures { RegistryReplied reader_reply (with_mode (mode_given mode) (λ given. register_reader_for_snapshot n given owner mark card.now)) bitmap.old reader_frames.old reader_owners.old local_readers.old registry.old result bitmap.new reader_frames.new reader_owners.new local_readers.new registry.new }
{
    let reader = Reader {
        owner: SharedOwnerRecord(owner),
        mark,
    };
    let settings = c_reader_replies::settings_of(n, mode);
    let in_registry = MarkInRegistry {
        records: registry.len(),
        seen: reader_registry::look_through(registry, settings.n, mark),
    };
    let mut slots = SharedSlots {
        bitmap,
        reader_frames,
        reader_owners,
    };
    let answer = reader_plans::share_plan(
        settings,
        &mut slots,
        local_readers,
        in_registry,
        card,
        reader,
    );
    change_registry(registry, answer);
    ReaderReply::from(answer)
}

// Releases a shared mark: a holder less, and the last one empties the slot. Answers 0, or the number of the refusal.
pub fn wal_unregister_reader_for_snapshot(
    n: usize,
    mode: u32,
    bitmap: &mut [u64],
    reader_frames: &mut [u64],
    reader_owners: &mut [u64],
    local_readers: &mut [u64],
    registry: &mut [SharedReadMark],
    mark: u64,
    slot: usize,
    owner: u64,
) -> u32
    ensures { RegistryReplied refusal_number (with_mode (mode_given mode) (λ given. unregister_reader_for_snapshot n given mark slot owner)) bitmap.old reader_frames.old reader_owners.old local_readers.old registry.old result bitmap.new reader_frames.new reader_owners.new local_readers.new registry.new }
{
    let reader = Reader {
        owner: SharedOwnerRecord(owner),
        mark,
    };
    let settings = c_reader_replies::settings_of(n, mode);
    let in_registry = MarkInRegistry {
        records: registry.len(),
        seen: reader_registry::look_through(registry, settings.n, mark),
    };
    let mut slots = SharedSlots {
        bitmap,
        reader_frames,
        reader_owners,
    };
    let answer = reader_plans::unshare_plan(
        settings,
        &mut slots,
        local_readers,
        in_registry,
        reader,
        slot,
    );
    if let Ok(place) = answer {
        reader_registry::release_shared_snapshot_reader(registry, place);
    }
    refusal::refusal_told(answer)
}

// The least mark above 0 of all live readers. card is as in wal_register_reader.
pub fn wal_min_active_reader_frame(
    n: usize,
    mode: u32,
    bitmap: &mut [u64],
    reader_frames: &mut [u64],
    reader_owners: &mut [u64],
    local_readers: &[u64],
    card: &[u8],
) -> FloorReply
    ensures { SlotsReplied floor_reply (with_mode (mode_given mode) (λ given. min_active_reader_frame n given card.now)) bitmap.old reader_frames.old reader_owners.old local_readers.now result bitmap.new reader_frames.new reader_owners.new local_readers.now }
{
    let settings = c_reader_replies::settings_of(n, mode);
    let mut slots = SharedSlots {
        bitmap,
        reader_frames,
        reader_owners,
    };
    let answer = floor::min_active_reader_frame(settings, &mut slots, local_readers, card);
    FloorReply::from(answer)
}

// Whether a reader in any process reads only the database file. card is as in wal_register_reader.
pub fn wal_has_active_db_file_reader(
    n: usize,
    mode: u32,
    bitmap: &mut [u64],
    reader_frames: &mut [u64],
    reader_owners: &mut [u64],
    local_readers: &[u64],
    card: &[u8],
) -> DbFileReply
    ensures { SlotsReplied db_file_reply (with_mode (mode_given mode) (λ given. has_active_db_file_reader n given card.now)) bitmap.old reader_frames.old reader_owners.old local_readers.now result bitmap.new reader_frames.new reader_owners.new local_readers.now }
{
    let settings = c_reader_replies::settings_of(n, mode);
    let mut slots = SharedSlots {
        bitmap,
        reader_frames,
        reader_owners,
    };
    let answer = floor::has_active_db_file_reader(settings, &mut slots, local_readers, card);
    DbFileReply::from(answer)
}

// The frame up to which a checkpoint may copy frames back. max_frame is the published frame, nbackfills the number of
// frames already copied. card is as in wal_register_reader.
pub fn wal_copy_back_limit(
    n: usize,
    mode: u32,
    max_frame: u64,
    nbackfills: u64,
    bitmap: &mut [u64],
    reader_frames: &mut [u64],
    reader_owners: &mut [u64],
    local_readers: &[u64],
    card: &[u8],
) -> LimitReply
    ensures { LimitReplied limit_reply (with_mode (mode_given mode) (λ given. copy_back_limit n given card.now)) max_frame nbackfills bitmap.old reader_frames.old reader_owners.old local_readers.now result bitmap.new reader_frames.new reader_owners.new }
{
    let settings = c_reader_replies::settings_of(n, mode);
    let mut slots = SharedSlots {
        bitmap,
        reader_frames,
        reader_owners,
    };
    let answer = limit::copy_back_limit(
        settings,
        max_frame,
        nbackfills,
        &mut slots,
        local_readers,
        card,
    );
    LimitReply::from(answer)
}
