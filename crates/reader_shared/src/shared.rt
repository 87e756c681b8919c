// What a shared registration and a shared release decide, by value.
ghost use Rattle.std.specs.Prelude.{◌≡◌, ◌&&◌, eqb, cond, option_map, Ok, Err, None, IfOk};
ghost use Rattle.wal_types.specs.Refusal.{refused_number};
ghost use Rattle.wal_types.specs.declared.refusal.Refusal.TheVariants.{RegistryFull};
ghost use Rattle.reader_shared.specs.Inner.{release_of, is_known, frees, shares_joined, joined_refusal, SlotFits, shares_published, room_refusal, share_length_refusal, share_refusal, last_refusal, mark_refusal, unshare_refusal};

use reader_marks::{MOST_HOLDERS, SharedSlot};
use reader_moves::update::SlotOwners;
use reader_slots::slots;
use reader_slots::slots::SharedSlots;
use wal_types::refusal::Refusal;
use wal_types::settings::Reader;
use wal_types::{SharedOwnerRecord, SharedReadMark, SharedWalOwnershipMode};

// What a registration that takes a slot does to one record of the registry: it retains the mark's, in this place, or publishes
// the mark in this empty place.
#[derive(Clone, Copy)]
pub enum RecordChange {
    Retained(usize),
    Published(usize),
}

// A shared registration that takes a slot, and the change of the registry that is still to be made.
#[derive(Clone, Copy)]
pub struct SharePlan {
    pub taken: SharedSlot,
    pub change: RecordChange,
}

// A release of a reader whose mark has a record: its slot and owner are not the record's, other holders are left, or it is that
// of the last one, which frees the slot.
#[derive(Clone, Copy)]
pub enum Release {
    Unregistered,
    Shared,
    Last,
}

// A mark that has the record item, in this place: it is retained.
pub fn share_joined(place: usize, item: SharedReadMark, mark: u64) -> SharePlan
    ensures { result ≡ shares_joined place item mark }
{
    SharePlan {
        taken: SharedSlot {
            slot: item.slot,
            reader: Reader {
                owner: item.owner,
                mark,
            },
        },
        change: RecordChange::Retained(place),
    }
}

// The same, unless the record has 65,535 holders or the card is refused.
#[tactic(auto, using(crate::proofs::Plans::joined_full, crate::proofs::Plans::joined_bad_card, crate::proofs::Plans::joined_kept))]
pub fn try_share_joined(
    place: usize,
    item: SharedReadMark,
    mark: u64,
    card: Result<(), Refusal>,
) -> Result<SharePlan, Refusal>
    ensures refused { refused_number result ≡ joined_refusal item card }
    ensures told { IfOk result (λ plan. plan ≡ shares_joined place item mark) }
{
    check_room(item)?;
    card?;
    Ok(share_joined(place, item, mark))
}

// A new mark, by the slot that was taken for it: a record is published for it, in the empty place free. Without a slot
// there is nothing to publish.
pub fn share_published(
    free: usize,
    registered: Option<usize>,
    reader: Reader,
) -> Result<Option<SharePlan>, Refusal>
    requires { SlotFits registered }
    ensures { result ≡ Ok (option_map (λ slot. shares_published free slot reader) registered) }
{
    let Some(slot) = registered else {
        return Ok(None);
    };
    Ok(Some(SharePlan {
        taken: SharedSlot {
            slot: slot as u32,
            reader,
        },
        change: RecordChange::Published(free),
    }))
}

// The answer to a new mark where no record is empty: refused if a slot could be taken.
pub fn without_record(takes: bool) -> Result<Option<SharePlan>, Refusal>
    ensures { result ≡ cond takes (Err RegistryFull) (Ok None) }
{
    if takes {
        return Err(Refusal::RegistryFull);
    }
    Ok(None)
}

// Refusal 13 of a mark that has a record: it has 65,535 holders.
pub fn check_room(item: SharedReadMark) -> Result<(), Refusal>
    ensures { refused_number result ≡ room_refusal item }
{
    if MOST_HOLDERS <= item.holders {
        return Err(Refusal::RegistryFull);
    }
    Ok(())
}

// Refusal 1, 2, 9 or 10, by the lengths of the lists and the reader.
#[tactic(auto, using(crate::proofs::Refused::share_early, crate::proofs::Refused::share_late))]
pub fn share_refusal(
    n: usize,
    bitmap_len: usize,
    reader_frames_len: usize,
    reader_owners_len: usize,
    local_readers_len: usize,
    records: usize,
    reader: Reader,
) -> Result<(), Refusal>
    ensures { refused_number result ≡ share_length_refusal n bitmap_len reader_frames_len reader_owners_len local_readers_len records reader }
{
    slots::registry_refusal(
        n,
        bitmap_len,
        reader_frames_len,
        reader_owners_len,
        local_readers_len,
        records,
    )?;
    slots::check_reader(reader)
}

// The same of lent slots.
#[tactic(auto, unfolding(crate::specs::Inner::share_refusal, crate::specs::Inner::share_length_refusal))]
pub fn check_share(
    n: usize,
    slots: &SharedSlots<'_>,
    local_readers: &[u64],
    records: usize,
    reader: Reader,
) -> Result<(), Refusal>
    ensures { refused_number result ≡ share_refusal n slots.now local_readers.now records reader }
{
    share_refusal(
        n,
        slots.bitmap.len(),
        slots.reader_frames.len(),
        slots.reader_owners.len(),
        local_readers.len(),
        records,
        reader,
    )
}

impl Release {
    // By the mark's record.
    pub fn of(item: SharedReadMark, slot: usize, owner: SharedOwnerRecord) -> Self
        ensures { result ≡ release_of item slot owner.0 }
    {
        if item.slot as usize != slot || item.owner != owner {
            return Release::Unregistered;
        }
        if item.holders == 1 {
            return Release::Last;
        }
        Release::Shared
    }

    // Whether its slot and owner are the record's.
    pub fn is_registered(self) -> bool
        ensures { result ≡ is_known self }
    {
        !matches!(self, Release::Unregistered)
    }

    // Whether it frees the slot.
    pub fn frees(self) -> bool
        ensures { result ≡ frees self }
    {
        matches!(self, Release::Last)
    }
}

// Refusal 7 or 8 of a release that frees the slot, by the slot's owners.
#[tactic(auto, unfolding(crate::specs::Inner::last_refusal))]
fn check_last(
    mode: SharedWalOwnershipMode,
    frees_slot: bool,
    owner: SharedOwnerRecord,
    owners: SlotOwners,
) -> Result<(), Refusal>
    ensures { refused_number result ≡ last_refusal mode frees_slot owner.0 owners.shared.0 owners.local.0 }
{
    if !frees_slot {
        return Ok(());
    }
    if owners.local == SharedOwnerRecord::UNOWNED {
        return Err(Refusal::NotHeld);
    }
    if owners.differ_from(owner, mode) {
        return Err(Refusal::OtherOwner);
    }
    Ok(())
}

// Refusal 9, 10 or 12 of a release, by its reader and whether the mark's record has this slot and owner.
#[tactic(auto, using(crate::proofs::Refused::mark_early, crate::proofs::Refused::mark_unknown, crate::proofs::Refused::mark_known))]
pub fn check_mark(reader: Reader, registered: bool) -> Result<(), Refusal>
    ensures { refused_number result ≡ mark_refusal reader.owner.0 reader.mark registered }
{
    slots::check_reader(reader)?;
    if !registered {
        return Err(Refusal::NoSuchMark);
    }
    Ok(())
}

// Refusal 7, 8, 9, 10 or 12 of a release.
#[tactic(auto, using(crate::proofs::Refused::unshare_early, crate::proofs::Refused::unshare_late))]
pub fn check_unshare(
    mode: SharedWalOwnershipMode,
    registered: bool,
    frees_slot: bool,
    reader: Reader,
    owners: SlotOwners,
) -> Result<(), Refusal>
    ensures { refused_number result ≡ unshare_refusal mode registered frees_slot reader.owner.0 reader.mark owners.shared.0 owners.local.0 }
{
    check_last(mode, frees_slot, reader.owner, owners)?;
    check_mark(reader, registered)
}
