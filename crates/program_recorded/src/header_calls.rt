// The calls on the header: publishes, bumps and the two locks.
use header_locks::Lock;
use std::fmt;
use wal_types::refusal::{Refusal, refusal_told};
use wal_types::{Header, SharedOwnerRecord, SharedWalOwnershipMode};

// What a call tells, and the header and the own cell, where it is lent one, as the call leaves them.
#[derive(Drop)]
pub struct HeaderAnswer {
    told: Result<u32, Refusal>,
    header: Header,
    own_cell: Option<u64>,
}

impl fmt::Display for HeaderAnswer {
    fn fmt<W: fmt::Write>(&self, f: &mut fmt::Formatter<W>) -> fmt::Result {
        write!(
            f,
            "{} {} {} {} {} {} {} {} {} {} {} {} {} {} {}",
            refusal_told(self.told),
            self.told.unwrap_or(0),
            self.header.frame_index_blocks,
            self.header.frame_index_len,
            self.header.frame_index_overflowed,
            self.header.max_frame,
            self.header.nbackfills,
            self.header.transaction_count,
            self.header.visibility_generation,
            self.header.checkpoint_seq,
            self.header.checkpoint_epoch,
            self.header.checksum_1,
            self.header.checksum_2,
            self.header.writer_owner,
            self.header.checkpoint_owner,
        )?;
        if let Some(own_cell) = self.own_cell {
            write!(f, " {own_cell}")?;
        }
        Ok(())
    }
}

// None: a cell of 32 bits has more.
fn header_of(cells: &[u64; 13]) -> Option<Header> {
    let [
        frame_index_blocks,
        frame_index_len,
        frame_index_overflowed,
        max_frame,
        nbackfills,
        transaction_count,
        visibility_generation,
        checkpoint_seq,
        checkpoint_epoch,
        checksum_1,
        checksum_2,
        writer_owner,
        checkpoint_owner,
    ] = *cells;
    Some(Header {
        frame_index_blocks: u32::try_from(frame_index_blocks).ok()?,
        frame_index_len: u32::try_from(frame_index_len).ok()?,
        frame_index_overflowed: u32::try_from(frame_index_overflowed).ok()?,
        max_frame,
        nbackfills,
        transaction_count,
        visibility_generation,
        checkpoint_seq: u32::try_from(checkpoint_seq).ok()?,
        checkpoint_epoch: u32::try_from(checkpoint_epoch).ok()?,
        checksum_1: u32::try_from(checksum_1).ok()?,
        checksum_2: u32::try_from(checksum_2).ok()?,
        writer_owner,
        checkpoint_owner,
    })
}

// The answer of a publish or a bump.
fn counted(told: u32, header: Header) -> HeaderAnswer {
    HeaderAnswer {
        told: Ok(told),
        header,
        own_cell: None,
    }
}

fn acquire(
    lock: Lock,
    before: Header,
    own_cell: u64,
    owner: u64,
    card: u64,
) -> Option<HeaderAnswer> {
    let card = u8::try_from(card).ok()?;
    let mut header = before;
    let mut local_owner = SharedOwnerRecord(own_cell);
    let owner = SharedOwnerRecord(owner);
    let taken = header_locks::try_acquire(lock, &mut header, &mut local_owner, owner, card);
    Some(HeaderAnswer {
        told: taken.map(u32::from),
        header,
        own_cell: Some(local_owner.0),
    })
}

fn release(
    lock: Lock,
    before: Header,
    own_cell: u64,
    mode: u64,
    owner: u64,
) -> Option<HeaderAnswer> {
    let mode = u32::try_from(mode).ok()?;
    let mode = SharedWalOwnershipMode::try_from(mode).ok()?;
    let mut header = before;
    let mut local_owner = SharedOwnerRecord(own_cell);
    let owner = SharedOwnerRecord(owner);
    let released = header_locks::release(lock, mode, &mut header, &mut local_owner, owner);
    Some(HeaderAnswer {
        told: released.map(|()| 0),
        header,
        own_cell: Some(local_owner.0),
    })
}

// Makes the call on the header's cells, with what stands behind them.
pub fn perform(call: u64, numbers: &[u64]) -> Option<HeaderAnswer> {
    let (cells, given) = numbers.split_first_chunk::<13>()?;
    let mut header = header_of(cells)?;
    match (call, given) {
        (1, [max_frame, checksum_1, checksum_2, transaction_count]) => {
            let checksum_1 = u32::try_from(*checksum_1).ok()?;
            let checksum_2 = u32::try_from(*checksum_2).ok()?;
            header_publish::publish_commit(
                &mut header,
                *max_frame,
                checksum_1,
                checksum_2,
                *transaction_count,
            );
            Some(counted(0, header))
        }
        (2, [nbackfills]) => {
            header_publish::publish_backfill(&mut header, *nbackfills);
            Some(counted(0, header))
        }
        (3, []) => {
            let seq = header_publish::bump_checkpoint_seq(&mut header);
            Some(counted(seq, header))
        }
        (4, []) => {
            let epoch = header_publish::bump_checkpoint_epoch(&mut header);
            Some(counted(epoch, header))
        }
        (5, [own_cell, owner, card]) => acquire(Lock::Writer, header, *own_cell, *owner, *card),
        (6, [own_cell, owner, card]) => acquire(Lock::Checkpoint, header, *own_cell, *owner, *card),
        (7, [own_cell, mode, owner]) => release(Lock::Writer, header, *own_cell, *mode, *owner),
        (8, [own_cell, mode, owner]) => release(Lock::Checkpoint, header, *own_cell, *mode, *owner),
        _ => None,
    }
}
