// The calls on reader slots, over memory of two slots.
use reader_floor::floor;
use reader_limit::limit;
use reader_register::register;
use reader_slots::slots::SharedSlots;
use std::fmt;
use wal_types::refusal::{Refusal, refusal_told};
use wal_types::settings::{Reader, ReaderSettings};
use wal_types::{SharedOwnerRecord, SharedWalOwnershipMode};

// What a call tells: which slot, mark or limit, if there is one; and the cells as it leaves them.
#[derive(Drop)]
pub struct ReaderAnswer {
    told: Result<Option<u64>, Refusal>,
    bitmap: [u64; 1],
    frames: [u64; 2],
    owners: [u64; 2],
    local_owners: [u64; 2],
}

impl fmt::Display for ReaderAnswer {
    fn fmt<W: fmt::Write>(&self, f: &mut fmt::Formatter<W>) -> fmt::Result {
        let told = self.told.unwrap_or(None);
        write!(
            f,
            "{} {} {} {} {} {} {} {} {} {}",
            refusal_told(self.told),
            u32::from(told.is_some()),
            told.unwrap_or(0),
            self.bitmap[0],
            self.frames[0],
            self.frames[1],
            self.owners[0],
            self.owners[1],
            self.local_owners[0],
            self.local_owners[1],
        )
    }
}

// Makes the call on the slots, with what stands behind the card.
pub fn perform(call: u64, numbers: &[u64]) -> Option<ReaderAnswer> {
    let (cells, numbers) = numbers.split_first_chunk::<9>()?;
    let (card, given) = numbers.split_first_chunk::<3>()?;
    let settings = ReaderSettings {
        n: usize::try_from(cells[0]).ok()?,
        mode: SharedWalOwnershipMode::try_from(u32::try_from(cells[1]).ok()?).ok()?,
    };
    let mut bitmap = [cells[2]];
    let mut frames = [cells[3], cells[4]];
    let mut owners = [cells[5], cells[6]];
    let mut local_owners = [cells[7], cells[8]];
    let bytes = [u8::try_from(card[1]).ok()?, u8::try_from(card[2]).ok()?];
    let card = bytes.get(..usize::try_from(card[0]).ok()?)?;
    let mut slots = SharedSlots {
        bitmap: &mut bitmap,
        reader_frames: &mut frames,
        reader_owners: &mut owners,
    };
    let told = match (call, given) {
        (9, [owner, mark]) => {
            let reader = Reader {
                owner: SharedOwnerRecord(*owner),
                mark: *mark,
            };
            register::register_reader(settings, &mut slots, &mut local_owners, card, reader).map(
                |slot| slot.map(|slot| slot as u64),
            )
        }
        (10, []) => floor::min_active_reader_frame(settings, &mut slots, &local_owners, card),
        (11, []) => floor::has_active_db_file_reader(settings, &mut slots, &local_owners, card).map(
            |is_active| is_active.then_some(0),
        ),
        (12, [max_frame, nbackfills]) => limit::copy_back_limit(
            settings,
            *max_frame,
            *nbackfills,
            &mut slots,
            &local_owners,
            card,
        )
        .map(Some),
        _ => return None,
    };
    Some(ReaderAnswer {
        told,
        bitmap,
        frames,
        owners,
        local_owners,
    })
}
