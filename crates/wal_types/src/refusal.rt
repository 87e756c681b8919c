// Why a call is turned away. The numbers are those of document 01's table.
ghost use Rattle.std.specs.Prelude.{◌≡◌};
ghost use Rattle.wal_types.specs.Refusal.{number, refused_number};

#[derive(Clone, Copy, PartialEq, Eq)]
pub enum Refusal {
    Settings = 1,
    ShortMemory = 2,
    FrameOrder = 3,
    HashFull = 4,
    ShortList = 5,
    SlotNumber = 6,
    NotHeld = 7,
    OtherOwner = 8,
    NoOwner = 9,
    UnusedMark = 10,
    SharedSlot = 11,
    NoSuchMark = 12,
    RegistryFull = 13,
    Card = 14,
    Probe = 15,
}

impl From<Refusal> for u32 {
    ghost from_gives = { λ refusal result. result ≡ number refusal };

    fn from(refusal: Refusal) -> u32 {
        refusal as u32
    }
}

// 0, or the number of the refusal.
pub fn refusal_told<T: Copy>(answer: Result<T, Refusal>) -> u32
    ensures { result ≡ refused_number answer }
{
    match answer {
        Ok(_) => 0,
        Err(refusal) => u32::from(refusal),
    }
}
