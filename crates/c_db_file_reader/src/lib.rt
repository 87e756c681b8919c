// The registration of a reader of the database file alone, which is the one at a mark, with mark 0. It has a crate of its own
// for its machine code: the compiler makes one function of a call and all that it calls where each has one caller in its
// crate's object file. With a second caller there, every shared registration passed its slices on through the stack and took up
// to twice as long.
#![tactic(auto)]

ghost use Rattle.wal_types.specs.Mode.{mode_given};
ghost use Rattle.reader_shared.specs.Shared.{register_db_file_reader};
ghost use Rattle.c_numbers.specs.Mode.{with_mode};
ghost use Rattle.c_reader_replies.specs.ReaderReply.{reader_reply};
ghost use Rattle.c_readers.specs.ReaderReplied.{RegistryReplied};

use c_reader_replies::ReaderReply;
use c_readers::reader_calls;
use wal_types::{DB_FILE_READER_FRAME, SharedReadMark};

// Registers a reader of the database file alone. card is as in wal_register_reader.
#[unsafe(no_mangle)]
pub extern "C" fn wal_register_db_file_reader(
    n: usize,
    mode: u32,
    bitmap: &mut [u64],
    reader_frames: &mut [u64],
    reader_owners: &mut [u64],
    local_readers: &mut [u64],
    registry: &mut [SharedReadMark],
    card: &[u8],
    owner: u64,
) -> ReaderReply
    ensures { RegistryReplied reader_reply (with_mode (mode_given mode) (λ given. register_db_file_reader n given owner card.now)) bitmap.old reader_frames.old reader_owners.old local_readers.old registry.old result bitmap.new reader_frames.new reader_owners.new local_readers.new registry.new }
{
    reader_calls::wal_register_reader_for_snapshot(
        n,
        mode,
        bitmap,
        reader_frames,
        reader_owners,
        local_readers,
        registry,
        card,
        owner,
        DB_FILE_READER_FRAME,
    )
}
