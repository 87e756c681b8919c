// The lock calls in numbers: each makes its call on the header that is lent, and answers the reply.
ghost use Rattle.std.specs.Prelude.{◌≡◌};
ghost use Rattle.header_locks.specs.Locks.{try_acquire, release, release_answer, LockCall};
ghost use Rattle.wal_types.specs.Mode.{mode_given};
ghost use Rattle.c_numbers.specs.Mode.{with_mode};
ghost use Rattle.c_header_replies.specs.InnerTold.{lock_told};
ghost use Rattle.c_header_replies.specs.LockReply.{LockReplied};

use header_locks::Lock;
use wal_types::refusal::{Refusal, refusal_told};
use wal_types::{Header, SharedOwnerRecord, SharedWalOwnershipMode};

// A lock call's answer in numbers. refusal: 0, or the number of the refusal. answer: 1 if the lock was taken or
// released, else 0. local_owner is as the call leaves it: after a refusal, as it was given.
#[repr(C)]
#[derive(Clone, Copy)]
pub struct LockReply {
    pub refusal: u32,
    pub answer: u32,
    pub local_owner: u64,
}

fn told(answer: Result<bool, Refusal>, local_owner: SharedOwnerRecord) -> LockReply
    ensures { result ≡ lock_told answer local_owner.0 }
{
    LockReply {
        refusal: refusal_told(answer),
        answer: u32::from(answer.unwrap_or(false)),
        local_owner: local_owner.0,
    }
}

pub fn try_acquire(
    lock: Lock,
    header: &mut Header,
    local_owner: u64,
    owner: u64,
    card: u8,
) -> LockReply
    ensures { LockReplied lock (try_acquire lock owner card) header.old local_owner header.new result }
{
    let mut local = SharedOwnerRecord(local_owner);
    let taken = header_locks::try_acquire(lock, header, &mut local, SharedOwnerRecord(owner), card);
    told(taken, local)
}

// Refused if mode is no mode's number.
fn release_by_mode(
    lock: Lock,
    mode: u32,
    header: &mut Header,
    local_owner: &mut SharedOwnerRecord,
    owner: SharedOwnerRecord,
) -> Result<(), Refusal>
    ensures { LockCall lock (with_mode (mode_given mode) (λ given. release lock given owner.0)) header.old local_owner.old.0 (release_answer result) header.new local_owner.new.0 }
{
    let given = SharedWalOwnershipMode::try_from(mode)?;
    header_locks::release(lock, given, header, local_owner, owner)
}

pub fn release(
    lock: Lock,
    mode: u32,
    header: &mut Header,
    local_owner: u64,
    owner: u64,
) -> LockReply
    ensures { LockReplied lock (with_mode (mode_given mode) (λ given. release lock given owner)) header.old local_owner header.new result }
{
    let mut local = SharedOwnerRecord(local_owner);
    let released = release_by_mode(lock, mode, header, &mut local, SharedOwnerRecord(owner));
    told(released.map(|()| true), local)
}
