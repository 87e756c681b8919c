// Probes that failed (refusal 15), looked for before anything is reclaimed, with the card's own refusal 14.
ghost use Rattle.std.specs.Prelude.{◌≡◌, [], ◌∷◌, suc, get_or};
ghost use Rattle.wal_types.specs.Settings.{unused};
ghost use Rattle.wal_types.specs.Refusal.{refused_number};
ghost use Rattle.reader_slots.specs.Search.{lowest_slot, some_slot};
ghost use Rattle.reader_probe.specs.Live.{looked_at};
ghost use Rattle.reader_slots.specs.Inner.{AllHold};
ghost use Rattle.reader_probe.specs.Inner.{failed_cell, db_file_cell, failed_by, db_file_by, probe_refusal};

use crate::live;
use reader_slots::slots;
use wal_types::byte_lock::ByteLock;
use wal_types::refusal::Refusal;
use wal_types::settings::ReaderSettings;
use wal_types::{DB_FILE_READER_FRAME, SharedOwnerRecord, SharedWalOwnershipMode};

// A slot's cells, with its byte of the card.
#[derive(Clone, Copy)]
struct Probed {
    frame: u64,
    owner: SharedOwnerRecord,
    local_owner: SharedOwnerRecord,
    card: u8,
}

impl Probed {
    #[tactic(auto, using(reader_slots::proofs::Cells::get_or_any))]
    fn of(
        reader_frames: &[u64],
        reader_owners: &[u64],
        local_readers: &[u64],
        card: &[u8],
        slot: usize,
    ) -> Self
        requires { AllHold (suc slot) (reader_frames.now ∷ reader_owners.now ∷ local_readers.now ∷ card.now ∷ []) }
        ensures frame { result.frame ≡ get_or reader_frames.now slot unused }
        ensures owner { result.owner.0 ≡ get_or reader_owners.now slot 0 }
        ensures local_owner { result.local_owner.0 ≡ get_or local_readers.now slot 0 }
        ensures card { result.card ≡ get_or card.now slot 0 }
    {
        Probed {
            frame: reader_frames[slot],
            owner: SharedOwnerRecord(reader_owners[slot]),
            local_owner: SharedOwnerRecord(local_readers[slot]),
            card: card[slot],
        }
    }

    // The holder could not be told: in LinuxOfd mode an error of its byte lock.
    fn is_failed(self, mode: SharedWalOwnershipMode) -> bool
        ensures { result ≡ failed_cell mode self.frame self.owner.0 self.local_owner.0 self.card }
    {
        !mode.is_fcntl()
            && !live::is_skipped(mode, self.frame, self.owner)
            && self.local_owner == SharedOwnerRecord::UNOWNED
            && self.card == ByteLock::Error as u8
    }

    // Live and of mark 0, and its probe does not fail.
    fn is_db_file(self, mode: SharedWalOwnershipMode) -> bool
        ensures { result ≡ db_file_cell mode self.frame self.owner.0 self.local_owner.0 self.card }
    {
        !live::is_skipped(mode, self.frame, self.owner)
            && live::is_live(self.local_owner, self.card)
            && !self.is_failed(mode)
            && self.frame == DB_FILE_READER_FRAME
    }
}

// Whether the probe of one of the first slots fails.
fn some_probe_failed(
    looked: usize,
    mode: SharedWalOwnershipMode,
    reader_frames: &[u64],
    reader_owners: &[u64],
    local_readers: &[u64],
    card: &[u8],
) -> bool
    requires { AllHold looked (reader_frames.now ∷ reader_owners.now ∷ local_readers.now ∷ card.now ∷ []) }
    ensures { result ≡ some_slot (failed_by mode card.now reader_frames.now reader_owners.now local_readers.now) looked 0 }
{
    (0..looked).any(|slot| {
        Probed::of(reader_frames, reader_owners, local_readers, card, slot).is_failed(mode)
    })
}

// The first live slot of mark 0 whose probe does not fail. has_active_db_file_reader looks at the slots before it, or
// at all.
fn db_file_slot(
    settings: ReaderSettings,
    reader_frames: &[u64],
    reader_owners: &[u64],
    local_readers: &[u64],
    card: &[u8],
) -> Option<usize>
    requires { AllHold settings.n (reader_frames.now ∷ reader_owners.now ∷ local_readers.now ∷ card.now ∷ []) }
    ensures { result ≡ lowest_slot (db_file_by settings.mode card.now reader_frames.now reader_owners.now local_readers.now) settings.n 0 }
{
    (0..settings.n).find(|&slot| {
        Probed::of(reader_frames, reader_owners, local_readers, card, slot).is_db_file(
            settings.mode,
        )
    })
}

// Refusal 14 or 15 of the floor. Only a card with an error byte has slots looked at.
#[tactic(auto, using(reader_slots::proofs::Card::card_fits, crate::proofs::Looked::refused_by_card, crate::proofs::Looked::no_error_byte, crate::proofs::Looked::look_passes))]
pub fn check_floor(
    settings: ReaderSettings,
    reader_frames: &[u64],
    reader_owners: &[u64],
    local_readers: &[u64],
    card: &[u8],
) -> Result<(), Refusal>
    requires { AllHold settings.n (reader_frames.now ∷ reader_owners.now ∷ local_readers.now ∷ []) }
    ensures { refused_number result ≡ probe_refusal settings card.now reader_frames.now reader_owners.now local_readers.now settings.n }
{
    if slots::card_has_error(settings.n, card)?
        && some_probe_failed(
            settings.n,
            settings.mode,
            reader_frames,
            reader_owners,
            local_readers,
            card,
        )
    {
        return Err(Refusal::Probe);
    }
    Ok(())
}

// The same of has_active_db_file_reader.
#[tactic(auto, using(reader_slots::proofs::Card::card_fits, crate::proofs::Looked::refused_by_card, crate::proofs::Looked::no_error_byte, crate::proofs::Looked::look_passes, crate::proofs::Looked::looked_bound))]
pub fn check_db_file(
    settings: ReaderSettings,
    reader_frames: &[u64],
    reader_owners: &[u64],
    local_readers: &[u64],
    card: &[u8],
) -> Result<(), Refusal>
    requires { AllHold settings.n (reader_frames.now ∷ reader_owners.now ∷ local_readers.now ∷ []) }
    ensures { refused_number result ≡ probe_refusal settings card.now reader_frames.now reader_owners.now local_readers.now (looked_at settings.n (lowest_slot (db_file_by settings.mode card.now reader_frames.now reader_owners.now local_readers.now) settings.n 0)) }
{
    if !slots::card_has_error(settings.n, card)? {
        return Ok(());
    }
    let first = db_file_slot(settings, reader_frames, reader_owners, local_readers, card);
    let looked = first.unwrap_or(settings.n);
    if some_probe_failed(
        looked,
        settings.mode,
        reader_frames,
        reader_owners,
        local_readers,
        card,
    ) {
        return Err(Refusal::Probe);
    }
    Ok(())
}
