// The writer and the checkpoint lock. A call is lent the header, which has the lock's shared cell, and this process's own
// cell for the lock; to acquire, it is given the answer of the byte lock: 0 busy, 1 granted, 2 error.
#![tactic(auto)]

ghost use Rattle.std.specs.Prelude.{◌≡◌, false, not, ◌&&◌, eqb};
ghost use Rattle.wal_types.specs.Memory.{header_with};
ghost use Rattle.wal_types.specs.Settings.{is_fcntl};
ghost use Rattle.header_locks.specs.InnerChange.{shared_owner_of};
ghost use Rattle.header_locks.specs.Locks.{owner_cell, try_acquire, acquire_answer, release, release_answer, LockCall};

use wal_types::byte_lock::ByteLock;
use wal_types::refusal::Refusal;
use wal_types::{Header, SharedOwnerRecord, SharedWalOwnershipMode};

#[derive(Clone, Copy)]
pub enum Lock {
    Writer,
    Checkpoint,
}

// An owner goes into the lock's shared cell.
pub fn set_owner(lock: Lock, header: &mut Header, owner: SharedOwnerRecord)
    ensures { header.new ≡ header_with (owner_cell lock) owner.0 header.old }
{
    match lock {
        Lock::Writer => {
            header.writer_owner = owner.0;
        }
        Lock::Checkpoint => {
            header.checkpoint_owner = owner.0;
        }
    }
}

// Whether that header is another one. Where it is not, the calls store nothing to it, so that they can be made on memory that
// is mapped read-only.
pub fn owner_changes(lock: Lock, header: Header, owner: SharedOwnerRecord) -> bool
    ensures { (result ≡ not (eqb owner.0 (shared_owner_of lock header))) × (result ≡ false → header_with (owner_cell lock) owner.0 header ≡ header) }
{
    match lock {
        Lock::Writer => owner.0 != header.writer_owner,
        Lock::Checkpoint => owner.0 != header.checkpoint_owner,
    }
}

// Attempts to take a lock: the owner goes into both cells, or the lock is busy. (The lock, the header and the owners stay
// parameters: there are two calls, and a struct would be made anew for each.)
#[tactic(auto, using(crate::proofs::Cells::local_of_with, wal_types::proofs::ByteLocks::off_card, wal_types::proofs::ByteLocks::on_card, wal_types::proofs::ByteLocks::granted, wal_types::proofs::ByteLocks::not_granted, crate::proofs::Cells::with_twice), unfolding(crate::specs::Locks::try_acquire))]
pub fn try_acquire(
    lock: Lock,
    header: &mut Header,
    local_owner: &mut SharedOwnerRecord,
    owner: SharedOwnerRecord,
    card: u8,
) -> Result<bool, Refusal>
    ensures { LockCall lock (try_acquire lock owner.0 card) header.old local_owner.old.0 (acquire_answer result) header.new local_owner.new.0 }
{
    if owner == SharedOwnerRecord::UNOWNED {
        return Err(Refusal::NoOwner);
    }
    let byte_lock = ByteLock::try_from(card)?;
    if *local_owner == SharedOwnerRecord::UNOWNED && byte_lock == ByteLock::Granted {
        if owner_changes(lock, *header, owner) {
            set_owner(lock, header, owner);
        }
        *local_owner = owner;
        return Ok(true);
    }
    Ok(false)
}

// Whether a release is by another than the local owner. LinuxOfd does not compare owners.
fn by_other_owner(
    mode: SharedWalOwnershipMode,
    local_owner: SharedOwnerRecord,
    owner: SharedOwnerRecord,
) -> bool
    ensures { result ≡ (is_fcntl mode && not (eqb owner.0 local_owner.0)) }
{
    mode.is_fcntl() && owner != local_owner
}

// Releases a lock: both cells become 0.
#[tactic(auto, using(crate::proofs::Cells::local_of_with, crate::proofs::Cells::with_twice), unfolding(crate::specs::Locks::release))]
pub fn release(
    lock: Lock,
    mode: SharedWalOwnershipMode,
    header: &mut Header,
    local_owner: &mut SharedOwnerRecord,
    owner: SharedOwnerRecord,
) -> Result<(), Refusal>
    ensures { LockCall lock (release lock mode owner.0) header.old local_owner.old.0 (release_answer result) header.new local_owner.new.0 }
{
    if *local_owner == SharedOwnerRecord::UNOWNED {
        return Err(Refusal::NotHeld);
    }
    if by_other_owner(mode, *local_owner, owner) {
        return Err(Refusal::OtherOwner);
    }
    if owner == SharedOwnerRecord::UNOWNED {
        return Err(Refusal::NoOwner);
    }
    if owner_changes(lock, *header, SharedOwnerRecord::UNOWNED) {
        set_owner(lock, header, SharedOwnerRecord::UNOWNED);
    }
    *local_owner = SharedOwnerRecord::UNOWNED;
    Ok(())
}
