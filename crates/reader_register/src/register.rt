// register_reader: a reader takes the lowest slot that it can lock, after a reclaim of stale slots if it must. Which slot
// that is, and whether there is one, is decided before anything is stored.
ghost use Rattle.std.specs.Prelude.{◌≡◌, [], ◌∷◌, set, is_some, None};
ghost use Rattle.wal_types.specs.Refusal.{refused_number};
ghost use Rattle.reader_slots.specs.Slots.{take_slot};
ghost use Rattle.reader_slots.specs.Search.{lowest_slot};
ghost use Rattle.reader_slots.specs.Inner.{AllHold, HoldBits, HoldSlot, HoldSlots, SlotsStored, LentCall, available_by};
ghost use Rattle.reader_register.specs.Register.{register_reader, slot_answer, register_answer};
ghost use Rattle.reader_register.specs.Inner.{stale_by, register_refusal, chosen_by, RegistersCall};

use crate::stale;
use reader_slots::slots::SharedSlots;
use reader_slots::{available, slots};
use wal_types::refusal::Refusal;
use wal_types::settings::{Reader, ReaderSettings};

// Writes a reader into its slot: bit 0, owner, mark, and the local owner.
fn take_slot(slots: &mut SharedSlots<'_>, local_readers: &mut [u64], slot: usize, reader: Reader)
    requires { HoldSlot slot slots.old (local_readers.old ∷ []) }
    ensures { SlotsStored (take_slot slot reader.owner.0 reader.mark) slots.old slots.new × (local_readers.new ≡ set local_readers.old slot reader.owner.0) }
{
    let word = slot / 64;
    slots.bitmap[word] = word_bits::without_bit(slots.bitmap[word], slot);
    slots.reader_owners[slot] = reader.owner.0;
    slots.reader_frames[slot] = reader.mark;
    local_readers[slot] = reader.owner.0;
}

// Refusal 1, 2, 9, 10 or 14, by the lengths of the lent lists, the reader and the card.
#[tactic(auto, using(crate::proofs::Registered::number_early, crate::proofs::Registered::number_reader, crate::proofs::Registered::number_card))]
fn check_register(
    n: usize,
    slots: &SharedSlots<'_>,
    local_readers: &[u64],
    card: &[u8],
    reader: Reader,
) -> Result<(), Refusal>
    ensures { refused_number result ≡ register_refusal n slots.now local_readers.now reader card.now }
{
    slots::check_slots(n, slots, local_readers)?;
    slots::check_reader(reader)?;
    slots::check_card(n, card)
}

// The lowest of lent slots that is free, granted and not held here.
fn available_lent(
    n: usize,
    slots: &SharedSlots<'_>,
    local_readers: &[u64],
    card: &[u8],
) -> Option<usize>
    requires { HoldBits n slots.now.bitmap.now × AllHold n (local_readers.now ∷ card.now ∷ []) }
    ensures { result ≡ lowest_slot (available_by slots.now.bitmap.now local_readers.now card.now) n 0 }
{
    available::available_slot(n, slots.bitmap, local_readers, card)
}

// The lowest of them that is stale.
fn stale_lent(
    settings: ReaderSettings,
    slots: &SharedSlots<'_>,
    local_readers: &[u64],
    card: &[u8],
) -> Option<usize>
    requires { HoldBits settings.n slots.now.bitmap.now × AllHold settings.n (slots.now.reader_owners.now ∷ local_readers.now ∷ card.now ∷ []) }
    ensures { result ≡ lowest_slot (stale_by settings.mode card.now slots.now.bitmap.now slots.now.reader_owners.now local_readers.now) settings.n 0 }
{
    stale::stale_slot(
        settings,
        slots.bitmap,
        slots.reader_owners,
        local_readers,
        card,
    )
}

// register_reader where none of its refusals applies and no slot is free: the lowest stale slot is taken, which is free once
// the stale slots are reclaimed.
#[tactic(auto, using(reader_slots::proofs::Lowest::found_below, crate::proofs::Registered::takes_none, crate::proofs::Registered::takes_stale))]
fn register_stale(
    settings: ReaderSettings,
    slots: &mut SharedSlots<'_>,
    local_readers: &mut [u64],
    card: &[u8],
    reader: Reader,
) -> Option<usize>
    requires room { HoldSlots settings.n slots.old (local_readers.old ∷ card.now ∷ []) }
    requires none_free { lowest_slot (available_by slots.old.bitmap.now local_readers.old card.now) settings.n 0 ≡ None }
    ensures { RegistersCall settings reader card.now slots.old local_readers.old (slot_answer reader.owner.0 reader.mark result) slots.new local_readers.new }
{
    let slot = stale_lent(settings, slots, local_readers, card)?;
    stale::reclaim_stale_reader_slots(settings, slot, slots, local_readers, card);
    take_slot(slots, local_readers, slot, reader);
    Some(slot)
}

// register_reader where none of its refusals applies. The lowest free slot is taken; if none is free, the lowest stale one.
#[tactic(auto, using(crate::proofs::Registered::takes_free, reader_slots::proofs::Lowest::found_below))]
pub fn register_checked(
    settings: ReaderSettings,
    slots: &mut SharedSlots<'_>,
    local_readers: &mut [u64],
    card: &[u8],
    reader: Reader,
) -> Option<usize>
    requires { HoldSlots settings.n slots.old (local_readers.old ∷ card.now ∷ []) }
    ensures { RegistersCall settings reader card.now slots.old local_readers.old (slot_answer reader.owner.0 reader.mark result) slots.new local_readers.new }
{
    if let Some(slot) = available_lent(settings.n, slots, local_readers, card) {
        take_slot(slots, local_readers, slot, reader);
        return Some(slot);
    }
    register_stale(settings, slots, local_readers, card, reader)
}

// Whether a registration could take a slot: one is free, or else one is stale.
#[tactic(auto, unfolding(crate::specs::Inner::chosen_by))]
pub fn could_take(
    settings: ReaderSettings,
    bitmap: &[u64],
    reader_owners: &[u64],
    local_readers: &[u64],
    card: &[u8],
) -> bool
    requires { HoldBits settings.n bitmap.now × AllHold settings.n (reader_owners.now ∷ local_readers.now ∷ card.now ∷ []) }
    ensures { result ≡ is_some (chosen_by settings card.now bitmap.now reader_owners.now local_readers.now) }
{
    available::available_slot(settings.n, bitmap, local_readers, card).is_some()
        || stale::stale_slot(settings, bitmap, reader_owners, local_readers, card).is_some()
}

// Takes a reader slot for a read transaction at a mark. The mark in the slot keeps checkpoints from copying past it. What
// register_checked does stands here once more, so that the compiler makes one function of this call: only where no slot is
// free are the lent slices passed on through the stack.
#[tactic(auto, using(crate::proofs::Registered::checked, crate::proofs::Registered::takes_free, crate::proofs::Registered::register_accepted, reader_slots::proofs::Lowest::found_below))]
pub fn register_reader(
    settings: ReaderSettings,
    slots: &mut SharedSlots<'_>,
    local_readers: &mut [u64],
    card: &[u8],
    reader: Reader,
) -> Result<Option<usize>, Refusal>
    ensures { LentCall (register_reader settings.n settings.mode reader.owner.0 reader.mark card.now) slots.old local_readers.old (register_answer reader.owner.0 reader.mark result) slots.new local_readers.new }
{
    check_register(settings.n, slots, local_readers, card, reader)?;
    if let Some(free) = available_lent(settings.n, slots, local_readers, card) {
        take_slot(slots, local_readers, free, reader);
        return Ok(Some(free));
    }
    Ok(register_stale(settings, slots, local_readers, card, reader))
}
