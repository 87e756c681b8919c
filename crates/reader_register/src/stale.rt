// Stale slots, whose holder is gone: their bit is 0, and yet their byte lock is granted. They are looked for before
// anything is stored, and emptied only if no slot is free.
ghost use Rattle.std.specs.Prelude.{◌≡◌, [], ◌∷◌, suc, ◌-◌, ◌/◌, ◌<◌, ◌≤◌, length};
ghost use Rattle.wal_types.specs.Store.{apply};
ghost use Rattle.reader_slots.specs.Slots.{empty_slots};
ghost use Rattle.reader_slots.specs.Search.{lowest_slot};
ghost use Rattle.reader_slots.specs.Inner.{AllHold, HoldBits, HoldSlot, HoldSlots, emptied_if, SlotsBecome};
ghost use Rattle.reader_register.specs.Register.{reclaimable};
ghost use Rattle.reader_register.specs.Inner.{stale_by};

use reader_slots::slots::SharedSlots;
use reader_slots::{available, slots};
use wal_types::settings::ReaderSettings;
use wal_types::{SharedOwnerRecord, SharedWalOwnershipMode};

// A slot that can be reclaimed: its bit is 0, and it can be locked. In ProcessScopedFcntl mode a slot
// without an owner is left as it is.
fn is_stale(
    mode: SharedWalOwnershipMode,
    bitmap: &[u64],
    reader_owners: &[u64],
    local_readers: &[u64],
    card: &[u8],
    slot: usize,
) -> bool
    requires { (slot / 64 < length bitmap.now) × AllHold (suc slot) (reader_owners.now ∷ local_readers.now ∷ card.now ∷ []) }
    ensures { result ≡ stale_by mode card.now bitmap.now reader_owners.now local_readers.now slot }
{
    word_bits::bit(bitmap[slot / 64], slot) != 1
        && available::can_lock(SharedOwnerRecord(local_readers[slot]), card[slot])
        && !slots::is_ownerless(mode, SharedOwnerRecord(reader_owners[slot]))
}

// The same of lent slots.
fn is_stale_lent(
    mode: SharedWalOwnershipMode,
    slots: &SharedSlots<'_>,
    local_readers: &[u64],
    card: &[u8],
    slot: usize,
) -> bool
    requires { (slot / 64 < length slots.now.bitmap.now) × AllHold (suc slot) (slots.now.reader_owners.now ∷ local_readers.now ∷ card.now ∷ []) }
    ensures { result ≡ stale_by mode card.now slots.now.bitmap.now slots.now.reader_owners.now local_readers.now slot }
{
    is_stale(
        mode,
        slots.bitmap,
        slots.reader_owners,
        local_readers,
        card,
        slot,
    )
}

// The lowest stale slot.
pub fn stale_slot(
    settings: ReaderSettings,
    bitmap: &[u64],
    reader_owners: &[u64],
    local_readers: &[u64],
    card: &[u8],
) -> Option<usize>
    requires { HoldBits settings.n bitmap.now × AllHold settings.n (reader_owners.now ∷ local_readers.now ∷ card.now ∷ []) }
    ensures { result ≡ lowest_slot (stale_by settings.mode card.now bitmap.now reader_owners.now local_readers.now) settings.n 0 }
{
    (0..settings.n).find(|&slot| is_stale(
        settings.mode,
        bitmap,
        reader_owners,
        local_readers,
        card,
        slot,
    ))
}

// Empties a slot if it is stale.
fn try_reclaim_stale_reader_slot(
    mode: SharedWalOwnershipMode,
    slots: &mut SharedSlots<'_>,
    local_readers: &[u64],
    card: &[u8],
    slot: usize,
)
    requires { HoldSlot slot slots.old (local_readers.now ∷ card.now ∷ []) }
    ensures { SlotsBecome (λ m p. emptied_if mode (reclaimable mode card.now p m slot) slot m) slots.old local_readers.now slots.new }
{
    if is_stale_lent(mode, slots, local_readers, card, slot) {
        slots.empty_slot(mode, slot);
    }
}

// Empties the stale slots, of those from the first stale one on. Here and in the passes over live slots a for stands: a
// proof knows nothing of a closure that stores to the slices.
pub fn reclaim_stale_reader_slots(
    settings: ReaderSettings,
    first: usize,
    slots: &mut SharedSlots<'_>,
    local_readers: &[u64],
    card: &[u8],
)
    requires first { first ≤ settings.n }
    requires room { HoldSlots settings.n slots.old (local_readers.now ∷ card.now ∷ []) }
    ensures { SlotsBecome (λ m p. apply (empty_slots settings.mode (reclaimable settings.mode card.now p) (settings.n - first) first m) m) slots.old local_readers.now slots.new }
{
    for slot in first..settings.n {
        try_reclaim_stale_reader_slot(settings.mode, slots, local_readers, card, slot);
    }
}
