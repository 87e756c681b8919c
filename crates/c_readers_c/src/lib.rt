// The C functions of the reader calls, each of which calls the function of its name in c_readers: a crate's functions are
// exported or called by other crates, not both, and wal_register_db_file_reader calls one of these.
#![tactic(auto)]

ghost use Rattle.wal_types.specs.Mode.{mode_given};
ghost use Rattle.reader_register.specs.Register.{register_reader};
ghost use Rattle.reader_moves.specs.Update.{update_reader, unregister_reader};
ghost use Rattle.reader_floor.specs.Floor.{min_active_reader_frame, has_active_db_file_reader};
ghost use Rattle.reader_limit.specs.Limit.{copy_back_limit};
ghost use Rattle.reader_shared.specs.Shared.{register_reader_for_snapshot, unregister_reader_for_snapshot};
ghost use Rattle.c_numbers.specs.Reply.{refusal_number};
ghost use Rattle.c_numbers.specs.Mode.{with_mode};
ghost use Rattle.c_reader_replies.specs.ReaderReply.{reader_reply, floor_reply, db_file_reply, limit_reply};
ghost use Rattle.c_readers.specs.ReaderReplied.{SlotsReplied, MoveReplied, RegistryReplied, LimitReplied};

use c_reader_replies::{DbFileReply, FloorReply, LimitReply, ReaderReply};
use c_readers::reader_calls;
use wal_types::SharedReadMark;

// Takes a reader slot at a mark. card is the byte locks' answers, one for each slot: 0 busy, 1 granted, 2 error.
#[unsafe(no_mangle)]
pub extern "C" fn wal_register_reader(
    n: usize,
    mode: u32,
    bitmap: &mut [u64],
    reader_frames: &mut [u64],
    reader_owners: &mut [u64],
    local_readers: &mut [u64],
    card: &[u8],
    owner: u64,
    mark: u64,
) -> ReaderReply
    ensures { SlotsReplied reader_reply (with_mode (mode_given mode) (λ given. register_reader n given owner mark card.now)) bitmap.old reader_frames.old reader_owners.old local_readers.old result bitmap.new reader_frames.new reader_owners.new local_readers.new }
{
    reader_calls::wal_register_reader(
        n,
        mode,
        bitmap,
        reader_frames,
        reader_owners,
        local_readers,
        card,
        owner,
        mark,
    )
}

// Moves a reader to another mark.
#[unsafe(no_mangle)]
pub extern "C" fn wal_update_reader(
    n: usize,
    reader_frames: &mut [u64],
    reader_owners: &[u64],
    registry: &[SharedReadMark],
    slot: usize,
    owner: u64,
    mark: u64,
) -> ReaderReply
    ensures { MoveReplied reader_reply (update_reader n slot owner mark) reader_frames.old reader_owners.now registry.now result reader_frames.new }
{
    reader_calls::wal_update_reader(n, reader_frames, reader_owners, registry, slot, owner, mark)
}

// Releases a reader's slot. Answers 0, or the number of the refusal.
#[unsafe(no_mangle)]
pub extern "C" fn wal_unregister_reader(
    n: usize,
    mode: u32,
    bitmap: &mut [u64],
    reader_frames: &mut [u64],
    reader_owners: &mut [u64],
    local_readers: &mut [u64],
    registry: &[SharedReadMark],
    slot: usize,
    owner: u64,
) -> u32
    ensures { RegistryReplied refusal_number (with_mode (mode_given mode) (λ given. unregister_reader n given slot owner)) bitmap.old reader_frames.old reader_owners.old local_readers.old registry.now result bitmap.new reader_frames.new reader_owners.new local_readers.new registry.now }
{
    reader_calls::wal_unregister_reader(
        n,
        mode,
        bitmap,
        reader_frames,
        reader_owners,
        local_readers,
        registry,
        slot,
        owner,
    )
}

// Takes a reader slot at a mark, or joins the connections of this process that share the mark. card is as in
// wal_register_reader.
#[unsafe(no_mangle)]
pub extern "C" fn wal_register_reader_for_snapshot(
    n: usize,
    mode: u32,
    bitmap: &mut [u64],
    reader_frames: &mut [u64],
    reader_owners: &mut [u64],
    local_readers: &mut [u64],
    registry: &mut [SharedReadMark],
    card: &[u8],
    owner: u64,
    mark: u64,
) -> ReaderReply
    ensures { RegistryReplied reader_reply (with_mode (mode_given mode) (λ given. register_reader_for_snapshot n given owner mark card.now)) bitmap.old reader_frames.old reader_owners.old local_readers.old registry.old result bitmap.new reader_frames.new reader_owners.new local_readers.new registry.new }
{
    reader_calls::wal_register_reader_for_snapshot(
        n,
        mode,
        bitmap,
        reader_frames,
        reader_owners,
        local_readers,
        registry,
        card,
        owner,
        mark,
    )
}

// Releases a shared mark: a holder less, and the last one empties the slot. Answers 0, or the number of the refusal.
#[unsafe(no_mangle)]
pub extern "C" fn wal_unregister_reader_for_snapshot(
    n: usize,
    mode: u32,
    bitmap: &mut [u64],
    reader_frames: &mut [u64],
    reader_owners: &mut [u64],
    local_readers: &mut [u64],
    registry: &mut [SharedReadMark],
    mark: u64,
    slot: usize,
    owner: u64,
) -> u32
    ensures { RegistryReplied refusal_number (with_mode (mode_given mode) (λ given. unregister_reader_for_snapshot n given mark slot owner)) bitmap.old reader_frames.old reader_owners.old local_readers.old registry.old result bitmap.new reader_frames.new reader_owners.new local_readers.new registry.new }
{
    reader_calls::wal_unregister_reader_for_snapshot(
        n,
        mode,
        bitmap,
        reader_frames,
        reader_owners,
        local_readers,
        registry,
        mark,
        slot,
        owner,
    )
}

// The least mark above 0 of all live readers. card is as in wal_register_reader.
#[unsafe(no_mangle)]
pub extern "C" fn wal_min_active_reader_frame(
    n: usize,
    mode: u32,
    bitmap: &mut [u64],
    reader_frames: &mut [u64],
    reader_owners: &mut [u64],
    local_readers: &[u64],
    card: &[u8],
) -> FloorReply
    ensures { SlotsReplied floor_reply (with_mode (mode_given mode) (λ given. min_active_reader_frame n given card.now)) bitmap.old reader_frames.old reader_owners.old local_readers.now result bitmap.new reader_frames.new reader_owners.new local_readers.now }
{
    reader_calls::wal_min_active_reader_frame(
        n,
        mode,
        bitmap,
        reader_frames,
        reader_owners,
        local_readers,
        card,
    )
}

// Whether a reader in any process reads only the database file. card is as in wal_register_reader.
#[unsafe(no_mangle)]
pub extern "C" fn wal_has_active_db_file_reader(
    n: usize,
    mode: u32,
    bitmap: &mut [u64],
    reader_frames: &mut [u64],
    reader_owners: &mut [u64],
    local_readers: &[u64],
    card: &[u8],
) -> DbFileReply
    ensures { SlotsReplied db_file_reply (with_mode (mode_given mode) (λ given. has_active_db_file_reader n given card.now)) bitmap.old reader_frames.old reader_owners.old local_readers.now result bitmap.new reader_frames.new reader_owners.new local_readers.now }
{
    reader_calls::wal_has_active_db_file_reader(
        n,
        mode,
        bitmap,
        reader_frames,
        reader_owners,
        local_readers,
        card,
    )
}

// The frame up to which a checkpoint may copy frames back. max_frame is the published frame, nbackfills the number of
// frames already copied. card is as in wal_register_reader.
#[unsafe(no_mangle)]
pub extern "C" fn wal_copy_back_limit(
    n: usize,
    mode: u32,
    max_frame: u64,
    nbackfills: u64,
    bitmap: &mut [u64],
    reader_frames: &mut [u64],
    reader_owners: &mut [u64],
    local_readers: &[u64],
    card: &[u8],
) -> LimitReply
    ensures { LimitReplied limit_reply (with_mode (mode_given mode) (λ given. copy_back_limit n given card.now)) max_frame nbackfills bitmap.old reader_frames.old reader_owners.old local_readers.now result bitmap.new reader_frames.new reader_owners.new }
{
    reader_calls::wal_copy_back_limit(
        n,
        mode,
        max_frame,
        nbackfills,
        bitmap,
        reader_frames,
        reader_owners,
        local_readers,
        card,
    )
}
