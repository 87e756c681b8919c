// Owners, publishes, bumps and the two locks. The header is lent. Where no cell of it changes there is no store, so that such
// a call can be made on memory that is mapped read-only.
ghost use Rattle.std.specs.Prelude.{◌≡◌, ◌+◌, ◌*◌, ◌/◌, ◌%◌, ◌^◌};
ghost use Rattle.header_locks.specs.declared.Lock.TheVariants.{Writer, Checkpoint};
ghost use Rattle.wal_types.specs.Call.{ok, value};
ghost use Rattle.header_publish.specs.Publish.{publish_commit, publish_backfill, bump_checkpoint_seq, bump_checkpoint_epoch, HeaderCall};
ghost use Rattle.header_locks.specs.Locks.{try_acquire, release};
ghost use Rattle.wal_types.specs.Mode.{mode_given};
ghost use Rattle.c_numbers.specs.Mode.{with_mode};
ghost use Rattle.c_header_replies.specs.LockReply.{LockReplied};

use c_header_replies::lock_reply;
use c_header_replies::lock_reply::LockReply;
use header_locks::Lock;
use wal_types::{Header, SharedOwnerRecord};

// An owner's number: the process id in its high 32 bits, the instance id in its low 32.
#[unsafe(no_mangle)]
pub extern "C" fn wal_owner_new(pid: u32, instance_id: u32) -> u64
    ensures { result ≡ pid * 2 ^ 32 + instance_id }
{
    let owner = SharedOwnerRecord::new(pid, instance_id);
    owner.raw()
}

#[unsafe(no_mangle)]
pub extern "C" fn wal_owner_pid(owner: u64) -> u32
    ensures { result ≡ owner / 2 ^ 32 }
{
    let record = SharedOwnerRecord(owner);
    record.pid()
}

#[unsafe(no_mangle)]
pub extern "C" fn wal_owner_instance_id(owner: u64) -> u32
    ensures { result ≡ owner % 2 ^ 32 }
{
    let record = SharedOwnerRecord(owner);
    record.instance_id()
}

// Publishes a committed transaction.
#[unsafe(no_mangle)]
pub extern "C" fn wal_publish_commit(
    header: &mut Header,
    max_frame: u64,
    checksum_1: u32,
    checksum_2: u32,
    transaction_count: u64,
)
    ensures { HeaderCall (publish_commit max_frame checksum_1 checksum_2 transaction_count) header.old ok header.new }
{
    header_publish::publish_commit(header, max_frame, checksum_1, checksum_2, transaction_count);
}

// Publishes how many frames are copied to the database file.
#[unsafe(no_mangle)]
pub extern "C" fn wal_publish_backfill(header: &mut Header, nbackfills: u64)
    ensures { HeaderCall (publish_backfill nbackfills) header.old ok header.new }
{
    header_publish::publish_backfill(header, nbackfills);
}

// Raises the checkpoint number; the answer is the new one.
#[unsafe(no_mangle)]
pub extern "C" fn wal_bump_checkpoint_seq(header: &mut Header) -> u32
    ensures { HeaderCall bump_checkpoint_seq header.old (value result) header.new }
{
    header_publish::bump_checkpoint_seq(header)
}

// Raises the checkpoint epoch; the answer is the old one.
#[unsafe(no_mangle)]
pub extern "C" fn wal_bump_checkpoint_epoch(header: &mut Header) -> u32
    ensures { HeaderCall bump_checkpoint_epoch header.old (value result) header.new }
{
    header_publish::bump_checkpoint_epoch(header)
}

// Attempts to take the writer lock. card is the byte lock's answer: 0 busy, 1 granted, 2 error.
#[unsafe(no_mangle)]
pub extern "C" fn wal_try_acquire_writer(
    header: &mut Header,
    local_owner: u64,
    owner: u64,
    card: u8,
) -> LockReply
    ensures { LockReplied Writer (try_acquire Writer owner card) header.old local_owner header.new result }
{
    lock_reply::try_acquire(Lock::Writer, header, local_owner, owner, card)
}

// Releases the writer lock. mode: 0 is LinuxOfd and 1 ProcessScopedFcntl.
#[unsafe(no_mangle)]
pub extern "C" fn wal_release_writer(
    mode: u32,
    header: &mut Header,
    local_owner: u64,
    owner: u64,
) -> LockReply
    ensures { LockReplied Writer (with_mode (mode_given mode) (λ given. release Writer given owner)) header.old local_owner header.new result }
{
    lock_reply::release(Lock::Writer, mode, header, local_owner, owner)
}

// Attempts to take the checkpoint lock. card is the byte lock's answer: 0 busy, 1 granted, 2 error.
#[unsafe(no_mangle)]
pub extern "C" fn wal_try_acquire_checkpoint(
    header: &mut Header,
    local_owner: u64,
    owner: u64,
    card: u8,
) -> LockReply
    ensures { LockReplied Checkpoint (try_acquire Checkpoint owner card) header.old local_owner header.new result }
{
    lock_reply::try_acquire(Lock::Checkpoint, header, local_owner, owner, card)
}

// Releases the checkpoint lock. mode: 0 is LinuxOfd and 1 ProcessScopedFcntl.
#[unsafe(no_mangle)]
pub extern "C" fn wal_release_checkpoint(
    mode: u32,
    header: &mut Header,
    local_owner: u64,
    owner: u64,
) -> LockReply
    ensures { LockReplied Checkpoint (with_mode (mode_given mode) (λ given. release Checkpoint given owner)) header.old local_owner header.new result }
{
    lock_reply::release(Lock::Checkpoint, mode, header, local_owner, owner)
}
