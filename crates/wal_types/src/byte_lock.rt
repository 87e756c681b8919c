// The answer of the byte lock of a slot or of one of the two locks, which the caller has asked for.
ghost use Rattle.std.specs.Prelude.{◌≡◌};
ghost use Rattle.wal_types.specs.InnerByteLock.{byte_lock_given};

use crate::refusal::Refusal;

// The numbers are those of a card's bytes.
#[derive(Clone, Copy, PartialEq, Eq)]
pub enum ByteLock {
    Busy = 0,
    Granted = 1,
    Error = 2,
}

// A byte above 2 is on no card.
impl TryFrom<u8> for ByteLock {
    type Error = Refusal;

    ghost try_from_gives = { λ byte result. result ≡ byte_lock_given byte };

    #[tactic(auto, unfolding(crate::specs::InnerByteLock::byte_lock_given))]
    fn try_from(byte: u8) -> Result<Self, Refusal> {
        match byte {
            0 => Ok(ByteLock::Busy),
            1 => Ok(ByteLock::Granted),
            2 => Ok(ByteLock::Error),
            _ => Err(Refusal::Card),
        }
    }
}
