// The words of the shared coordination memory: owners, the header's cells, the registry's records and the lock mode.
// The definitions that all calls share (settings, memory, stores, answers, refusals, fresh memory) are in specs/.
#![tactic(auto)]

pub mod byte_lock;
pub mod refusal;
pub mod settings;

ghost use Rattle.std.specs.Prelude.{◌≡◌, ◌+◌, ◌*◌, ◌/◌, ◌%◌, ◌^◌};
ghost use Rattle.wal_types.specs.Settings.{is_fcntl};
ghost use Rattle.wal_types.specs.Mode.{mode_given};

use refusal::Refusal;

// The frame of a reader slot that holds no mark (document 01: UNUSED).
pub const UNUSED_READER_FRAME: u64 = 18446744073709551615;

// The mark of a reader that reads only the database file.
pub const DB_FILE_READER_FRAME: u64 = 0;

// The owner cell of a slot or lock that nobody holds.
pub const UNOWNED_LOCK: u64 = 0;

// Entries in one block of the frame index, and hash cells in one block.
pub const FRAME_INDEX_BLOCK_CAPACITY: u32 = 4096;

pub const FRAME_INDEX_BLOCK_HASH_SLOTS: u32 = 8192;

// A connection, as it stands in owner cells: its process id in the high 32 bits, its instance id in the low 32.
// It is a type of its own so that an owner is never passed as a mark.
#[repr(C)]
#[derive(Clone, Copy, PartialEq, Eq)]
pub struct SharedOwnerRecord(pub u64);

impl SharedOwnerRecord {
    // Nobody.
    pub const UNOWNED: Self = SharedOwnerRecord(UNOWNED_LOCK);

    pub fn new(pid: u32, instance_id: u32) -> Self
        ensures { result.0 ≡ pid * 2 ^ 32 + instance_id }
    {
        SharedOwnerRecord((pid as u64) * 4294967296 + (instance_id as u64))
    }

    pub fn raw(self) -> u64
        ensures { result ≡ self.0 }
    {
        self.0
    }

    pub fn pid(self) -> u32
        ensures { result ≡ self.0 / 2 ^ 32 }
    {
        (self.0 / 4294967296) as u32
    }

    pub fn instance_id(self) -> u32
        ensures { result ≡ self.0 % 2 ^ 32 }
    {
        (self.0 % 4294967296) as u32
    }
}

// The locking primitive behind the slots and the two locks.
#[derive(Clone, Copy, PartialEq, Eq)]
pub enum SharedWalOwnershipMode {
    LinuxOfd,
    ProcessScopedFcntl,
}

impl SharedWalOwnershipMode {
    // Whether the mode is ProcessScopedFcntl.
    pub fn is_fcntl(self) -> bool
        ensures { result ≡ is_fcntl self }
    {
        self == SharedWalOwnershipMode::ProcessScopedFcntl
    }
}

// 0 is LinuxOfd and 1 ProcessScopedFcntl. Another number is a setting out of its limits.
impl TryFrom<u32> for SharedWalOwnershipMode {
    type Error = Refusal;

    ghost try_from_gives = { λ mode result. result ≡ mode_given mode };

    #[tactic(auto, unfolding(crate::specs::Mode::mode_given))]
    fn try_from(mode: u32) -> Result<Self, Refusal> {
        if mode == 0 {
            return Ok(SharedWalOwnershipMode::LinuxOfd);
        }
        if mode == 1 {
            return Ok(SharedWalOwnershipMode::ProcessScopedFcntl);
        }
        Err(Refusal::Settings)
    }
}

// The header's cells, in the source's order. The source's further cells (magic, layout numbers, the snapshot
// sequence, page size, salts and the backfill proof) belong to what is left out.
#[repr(C)]
#[derive(Clone, Copy)]
pub struct Header {
    pub frame_index_blocks: u32,
    pub frame_index_len: u32,
    pub frame_index_overflowed: u32,
    pub max_frame: u64,
    pub nbackfills: u64,
    pub transaction_count: u64,
    pub visibility_generation: u64,
    pub checkpoint_seq: u32,
    pub checkpoint_epoch: u32,
    pub checksum_1: u32,
    pub checksum_2: u32,
    pub writer_owner: u64,
    pub checkpoint_owner: u64,
}

// One record of a process's registry of shared marks. With 0 holders it is empty.
#[repr(C)]
#[derive(Clone, Copy)]
pub struct SharedReadMark {
    pub mark: u64,
    pub slot: u32,
    pub owner: SharedOwnerRecord,
    pub holders: u32,
}
