// What all calls on reader slots share: the refusals 1, 2, 9, 10 and 14, and the emptying of one slot.
ghost use Rattle.std.specs.Prelude.{◌≡◌, ◌&&◌, [], ◌∷◌, ◌/◌, ◌%◌, ◌<◌, eqb, length, get_or, set, IfOk};
ghost use Rattle.wal_types.specs.Settings.{is_fcntl};
ghost use Rattle.wal_types.specs.Refusal.{refused_number};
ghost use Rattle.word_bits.specs.Bit.{set_bit};
ghost use Rattle.reader_slots.specs.Slots.{empty_slot};
ghost use Rattle.reader_slots.specs.Inner.{HoldSlot, SlotsStored, length_refusal, registry_length_refusal, slots_refusal, registry_refusal, reader_refusal, card_refusal, greatest};

use wal_types::byte_lock::ByteLock;
use wal_types::refusal::Refusal;
use wal_types::settings::Reader;
use wal_types::{SharedOwnerRecord, SharedWalOwnershipMode, UNOWNED_LOCK, UNUSED_READER_FRAME};

// The cells of the reader slots in shared memory, as a call is lent them. (That they are those of n slots stands in contracts, as
// HoldSlots: the local owners and the card, which are lent apart, have to be as many.)
#[derive(Drop)]
pub struct SharedSlots<'a> {
    pub bitmap: &'a mut [u64],
    pub reader_frames: &'a mut [u64],
    pub reader_owners: &'a mut [u64],
}

// A slot without an owner, which in ProcessScopedFcntl mode is neither reclaimed nor counted.
pub fn is_ownerless(mode: SharedWalOwnershipMode, owner: SharedOwnerRecord) -> bool
    ensures { result ≡ (is_fcntl mode && eqb owner.0 0) }
{
    mode.is_fcntl() && owner == SharedOwnerRecord::UNOWNED
}

// Refusal 1 or 2, by the lengths of the lists.
#[tactic(auto, unfolding(crate::specs::Inner::length_refusal))]
pub fn slots_refusal(
    n: usize,
    bitmap_len: usize,
    reader_frames_len: usize,
    reader_owners_len: usize,
    local_readers_len: usize,
) -> Result<(), Refusal>
    ensures { refused_number result ≡ length_refusal n bitmap_len reader_frames_len reader_owners_len local_readers_len }
{
    if n < 1 || 256 < n {
        return Err(Refusal::Settings);
    }
    if bitmap_len < (n + 63) / 64
        || reader_frames_len < n
        || reader_owners_len < n
        || local_readers_len < n
    {
        return Err(Refusal::ShortMemory);
    }
    Ok(())
}

// Refusal 1 or 2 where the registry of shared marks is lent too.
#[tactic(auto, using(crate::proofs::Calls::registry_early, crate::proofs::Calls::registry_short, crate::proofs::Calls::registry_fits))]
pub fn registry_refusal(
    n: usize,
    bitmap_len: usize,
    reader_frames_len: usize,
    reader_owners_len: usize,
    local_readers_len: usize,
    registry_len: usize,
) -> Result<(), Refusal>
    ensures { refused_number result ≡ registry_length_refusal n bitmap_len reader_frames_len reader_owners_len local_readers_len registry_len }
{
    slots_refusal(
        n,
        bitmap_len,
        reader_frames_len,
        reader_owners_len,
        local_readers_len,
    )?;
    if registry_len < n {
        return Err(Refusal::ShortMemory);
    }
    Ok(())
}

// Refusal 1 or 2 of lent slots.
#[tactic(auto, unfolding(crate::specs::Inner::slots_refusal, crate::specs::Inner::length_refusal))]
pub fn check_slots(n: usize, slots: &SharedSlots<'_>, local_readers: &[u64]) -> Result<(), Refusal>
    ensures { refused_number result ≡ slots_refusal n slots.now local_readers.now }
{
    slots_refusal(
        n,
        slots.bitmap.len(),
        slots.reader_frames.len(),
        slots.reader_owners.len(),
        local_readers.len(),
    )
}

// The same where the registry is lent too.
#[tactic(auto, unfolding(crate::specs::Inner::registry_refusal, crate::specs::Inner::registry_length_refusal))]
pub fn check_registry(
    n: usize,
    slots: &SharedSlots<'_>,
    local_readers: &[u64],
    registry_len: usize,
) -> Result<(), Refusal>
    ensures { refused_number result ≡ registry_refusal n slots.now local_readers.now registry_len }
{
    let words = slots.bitmap.len();
    let frames = slots.reader_frames.len();
    let owners = slots.reader_owners.len();
    registry_refusal(n, words, frames, owners, local_readers.len(), registry_len)
}

// Refusal 9 or 10, by the owner and the mark of a reader.
#[tactic(auto, unfolding(crate::specs::Inner::reader_refusal))]
pub fn check_reader(reader: Reader) -> Result<(), Refusal>
    ensures { refused_number result ≡ reader_refusal reader.owner.0 reader.mark }
{
    if reader.owner == SharedOwnerRecord::UNOWNED {
        return Err(Refusal::NoOwner);
    }
    if reader.mark == UNUSED_READER_FRAME {
        return Err(Refusal::UnusedMark);
    }
    Ok(())
}

// The greatest byte of the card, 0 if it has none. All bytes are looked at, many at a time: no early exit.
#[tactic(auto, unfolding(crate::specs::Inner::greatest))]
pub fn greatest_byte(card: &[u8]) -> u8
    ensures { result ≡ greatest card.now }
{
    card.iter().fold(0, |so_far, byte| so_far.max(*byte))
}

// Whether the card has an error byte, or refusal 14. The length is tested first: the compiler then knows that at most 256
// bytes are looked at.
#[tactic(auto, using(crate::proofs::Card::above_by_greatest), unfolding(crate::specs::Inner::card_refusal))]
pub fn card_has_error(n: usize, card: &[u8]) -> Result<bool, Refusal>
    ensures refused { refused_number result ≡ card_refusal n card.now }
    ensures told { IfOk result (λ has. has ≡ eqb (greatest card.now) 2) }
{
    if card.len() != n {
        return Err(Refusal::Card);
    }
    let greatest = greatest_byte(card);
    if greatest > ByteLock::Error as u8 {
        return Err(Refusal::Card);
    }
    Ok(greatest == ByteLock::Error as u8)
}

// Refusal 14.
pub fn check_card(n: usize, card: &[u8]) -> Result<(), Refusal>
    ensures { refused_number result ≡ card_refusal n card.now }
{
    card_has_error(n, card)?;
    Ok(())
}

// Slot i's bit becomes 1.
fn free_bit(bitmap: &mut [u64], slot: usize)
    requires { slot / 64 < length bitmap.old }
    ensures { bitmap.new ≡ set bitmap.old (slot / 64) (set_bit (get_or bitmap.old (slot / 64) 0) (slot % 64)) }
{
    let word = slot / 64;
    bitmap[word] = word_bits::with_bit(bitmap[word], slot);
}

impl SharedSlots<'_> {
    // Empties a slot, on release or when it is reclaimed: frame UNUSED, owner 0, bit 1, in the mode's order.
    pub fn empty_slot(&mut self, mode: SharedWalOwnershipMode, slot: usize)
        requires { HoldSlot slot self.old [] }
        ensures { SlotsStored (empty_slot mode slot) self.old self.new }
    {
        match mode {
            SharedWalOwnershipMode::LinuxOfd => {
                self.reader_frames[slot] = UNUSED_READER_FRAME;
                self.reader_owners[slot] = UNOWNED_LOCK;
                free_bit(self.bitmap, slot);
            }
            SharedWalOwnershipMode::ProcessScopedFcntl => {
                self.reader_owners[slot] = UNOWNED_LOCK;
                self.reader_frames[slot] = UNUSED_READER_FRAME;
                free_bit(self.bitmap, slot);
            }
        }
    }
}
