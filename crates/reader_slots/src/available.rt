// The lowest slot that a reader can take at once, looked for word by word.
ghost use Rattle.std.specs.Prelude.{◌≡◌, ◌&&◌, [], ◌∷◌, ◌+◌, ◌-◌, ◌≤◌, eqb};
ghost use Rattle.reader_slots.specs.Search.{lowest_slot};
ghost use Rattle.reader_slots.specs.Inner.{AllHold, HoldBits, available_by, available_in};

use wal_types::SharedOwnerRecord;
use wal_types::byte_lock::ByteLock;

// A slot that can be locked: it is granted and not held here.
pub fn can_lock(local_owner: SharedOwnerRecord, card: u8) -> bool
    ensures { result ≡ (eqb local_owner.0 0 && eqb card 1) }
{
    local_owner == SharedOwnerRecord::UNOWNED && card == ByteLock::Granted as u8
}

// The lowest available slot of one word, whose slots are those from first to end. Only free slots are looked at, from the
// lowest set bit on: a slot that cannot be locked has its bit dropped. It is a while, since std has no iterator over the set
// bits of a word.
fn slot_in_word(
    word: u64,
    first: usize,
    end: usize,
    local_readers: &[u64],
    card: &[u8],
) -> Option<usize>
    requires { (first ≤ end) × (end ≤ first + 64) × (end ≤ 256) × AllHold end (local_readers.now ∷ card.now ∷ []) }
    ensures { result ≡ lowest_slot (available_in word first local_readers.now card.now) (end - first) first }
{
    let mut left = word;
    while left != 0 {
        let bit = word_bits::lowest_bit(left) as usize;
        let slot = first + bit;
        if end <= slot {
            return None;
        }
        if can_lock(SharedOwnerRecord(local_readers[slot]), card[slot]) {
            return Some(slot);
        }
        left = word_bits::without_bit(left, bit);
    }
    None
}

// The lowest slot that is free, granted and not held here.
pub fn available_slot(n: usize, bitmap: &[u64], local_readers: &[u64], card: &[u8]) -> Option<usize>
    requires { HoldBits n bitmap.now × AllHold n (local_readers.now ∷ card.now ∷ []) }
    ensures { result ≡ lowest_slot (available_by bitmap.now local_readers.now card.now) n 0 }
{
    let words = (n + 63) / 64;
    (0..words).find_map(|word| {
        let first = word * 64;
        let end = (first + 64).min(n);
        slot_in_word(bitmap[word], first, end, local_readers, card)
    })
}
