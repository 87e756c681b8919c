// update_reader, a move of a reader to another mark, and unregister_reader, the release of its slot. Both are turned
// away from a slot of the registry of shared marks.
ghost use Rattle.std.specs.Prelude.{◌≡◌, suc, not, ◌&&◌, ◌||◌, [], ◌∷◌, eqb, get_or, set};
ghost use Rattle.wal_types.specs.Settings.{is_fcntl};
ghost use Rattle.reader_slots.specs.Slots.{empty_slot};
ghost use Rattle.reader_slots.specs.Inner.{AllHold, HoldSlot, SlotsStored};
ghost use Rattle.reader_moves.specs.Update.{update_reader, update_answer, MoveCall, unregister_reader, release_answer};
ghost use Rattle.reader_moves.specs.Inner.{LentRelease};

use reader_slots::slots;
use reader_slots::slots::SharedSlots;
use wal_types::refusal::Refusal;
use wal_types::settings::{Reader, ReaderSettings};
use wal_types::{SharedOwnerRecord, SharedWalOwnershipMode, UNOWNED_LOCK};

// What a caller says of the registry of shared marks, which is not lent here: how many records it has, and whether one
// of its first n is in use for the slot. The contracts hold for every registry of which this is so. Where it is so of
// none (is_shared with no records), they say nothing.
#[derive(Clone, Copy)]
pub struct SlotInRegistry {
    pub records: usize,
    pub is_shared: bool,
}

// Moves a reader to another mark.
#[tactic(auto, unfolding(crate::specs::Update::update_reader))]
pub fn update_core(
    n: usize,
    reader_frames: &mut [u64],
    reader_owners: &[u64],
    slot: usize,
    reader: Reader,
    registry: SlotInRegistry,
) -> Result<(), Refusal>
    ensures { MoveCall n slot registry.is_shared registry.records (update_reader n slot reader.owner.0 reader.mark) reader_frames.old reader_owners.now (update_answer slot reader.owner.0 reader.mark result) reader_frames.new }
{
    if n < 1 || 256 < n {
        return Err(Refusal::Settings);
    }
    if reader_frames.len() < n || reader_owners.len() < n || registry.records < n {
        return Err(Refusal::ShortMemory);
    }
    if n <= slot {
        return Err(Refusal::SlotNumber);
    }
    if reader.owner != SharedOwnerRecord(reader_owners[slot]) {
        return Err(Refusal::OtherOwner);
    }
    slots::check_reader(reader)?;
    if registry.is_shared {
        return Err(Refusal::SharedSlot);
    }
    // A reader that has the mark already is left as it is: no store.
    if reader_frames[slot] != reader.mark {
        reader_frames[slot] = reader.mark;
    }
    Ok(())
}

// The owners of a slot: the shared one, and this process's own.
#[derive(Clone, Copy)]
pub struct SlotOwners {
    pub shared: SharedOwnerRecord,
    pub local: SharedOwnerRecord,
}

impl SlotOwners {
    pub fn of(slots: &SharedSlots<'_>, local_readers: &[u64], slot: usize) -> Self
        requires { AllHold (suc slot) (slots.now.reader_owners.now ∷ local_readers.now ∷ []) }
        ensures shared { result.shared.0 ≡ get_or slots.now.reader_owners.now slot 0 }
        ensures local { result.local.0 ≡ get_or local_readers.now slot 0 }
    {
        SlotOwners {
            shared: SharedOwnerRecord(slots.reader_owners[slot]),
            local: SharedOwnerRecord(local_readers[slot]),
        }
    }

    // Whether a release by the owner is by another than the slot's. LinuxOfd does not compare the local one.
    pub fn differ_from(self, owner: SharedOwnerRecord, mode: SharedWalOwnershipMode) -> bool
        ensures { result ≡ (not (eqb owner.0 self.shared.0) || (is_fcntl mode && not (eqb owner.0 self.local.0))) }
    {
        owner != self.shared || (mode.is_fcntl() && owner != self.local)
    }
}

// Empties a slot that is held here.
pub fn release_slot(
    mode: SharedWalOwnershipMode,
    slots: &mut SharedSlots<'_>,
    local_readers: &mut [u64],
    slot: usize,
)
    requires { HoldSlot slot slots.old (local_readers.old ∷ []) }
    ensures { SlotsStored (empty_slot mode slot) slots.old slots.new × (local_readers.new ≡ set local_readers.old slot 0) }
{
    slots.empty_slot(mode, slot);
    local_readers[slot] = UNOWNED_LOCK;
}

// Releases a reader's slot.
#[tactic(auto, using(reader_slots::proofs::Calls::registry_enough, crate::proofs::Released::release_other_owner, crate::proofs::Released::release_no_owner, crate::proofs::Released::release_shared))]
pub fn unregister_core(
    settings: ReaderSettings,
    slots: &mut SharedSlots<'_>,
    local_readers: &mut [u64],
    slot: usize,
    owner: SharedOwnerRecord,
    registry: SlotInRegistry,
) -> Result<(), Refusal>
    ensures { LentRelease settings.n slot registry (unregister_reader settings.n settings.mode slot owner.0) slots.old local_readers.old (release_answer result) slots.new local_readers.new }
{
    slots::check_registry(settings.n, slots, local_readers, registry.records)?;
    if settings.n <= slot {
        return Err(Refusal::SlotNumber);
    }
    let owners = SlotOwners::of(slots, local_readers, slot);
    if owners.local == SharedOwnerRecord::UNOWNED {
        return Err(Refusal::NotHeld);
    }
    if owners.differ_from(owner, settings.mode) {
        return Err(Refusal::OtherOwner);
    }
    if owner == SharedOwnerRecord::UNOWNED {
        return Err(Refusal::NoOwner);
    }
    if registry.is_shared {
        return Err(Refusal::SharedSlot);
    }
    release_slot(settings.mode, slots, local_readers, slot);
    Ok(())
}
