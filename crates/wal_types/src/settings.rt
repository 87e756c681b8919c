// The settings that calls are given, and a reader.
use crate::{SharedOwnerRecord, SharedWalOwnershipMode};

// The settings of the frame index: how many entries it may have, and how many blocks.
#[derive(Clone, Copy)]
pub struct IndexSettings {
    pub capacity: u32,
    pub max_blocks: u32,
}

// The settings of the reader slots: how many there are, and the lock mode.
#[derive(Clone, Copy)]
pub struct ReaderSettings {
    pub n: usize,
    pub mode: SharedWalOwnershipMode,
}

// A reader: the connection that reads, and its mark, the frame up to which it reads.
#[derive(Clone, Copy)]
pub struct Reader {
    pub owner: SharedOwnerRecord,
    pub mark: u64,
}
