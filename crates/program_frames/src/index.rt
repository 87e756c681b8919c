// The index, with the program's settings: capacity 4,096, one block, and no growth.
use index_record::record::Recorded;
use wal_types::refusal::Refusal;
use wal_types::settings::IndexSettings;
use wal_types::{FRAME_INDEX_BLOCK_CAPACITY, FRAME_INDEX_BLOCK_HASH_SLOTS, Header};

const SETTINGS: IndexSettings = IndexSettings {
    capacity: 4096,
    max_blocks: 1,
};

// One block's entries, which are as many pairs as a list can have, and its hash cells.
pub const ENTRIES: usize = FRAME_INDEX_BLOCK_CAPACITY as usize;

const CELLS: usize = FRAME_INDEX_BLOCK_HASH_SLOTS as usize;

// The lists are arrays: nothing is allocated, and no call can run out of memory.
#[derive(Drop)]
pub struct Index {
    header: Header,
    pages: [u64; ENTRIES],
    frames: [u64; ENTRIES],
    hash: [u16; CELLS],
}

impl Index {
    // Fresh memory with one block in use.
    pub fn new() -> Index {
        let header = Header {
            frame_index_blocks: 1,
            frame_index_len: 0,
            frame_index_overflowed: 0,
            max_frame: 0,
            nbackfills: 0,
            transaction_count: 0,
            visibility_generation: 0,
            checkpoint_seq: 0,
            checkpoint_epoch: 0,
            checksum_1: 0,
            checksum_2: 0,
            writer_owner: 0,
            checkpoint_owner: 0,
        };
        Index {
            header,
            pages: [0; ENTRIES],
            frames: [0; ENTRIES],
            hash: [0; CELLS],
        }
    }

    // Whether the entry was stored; else it is dropped.
    pub fn record(&mut self, page: u64, frame: u64) -> Result<bool, Refusal> {
        let recorded = index_record::record::record_frame(
            SETTINGS,
            &mut self.header,
            &mut self.pages,
            &mut self.frames,
            &mut self.hash,
            page,
            frame,
            false,
        )?;
        Ok(matches!(recorded, Recorded::Stored))
    }

    // The length kept.
    pub fn rollback(&mut self, frame: u64) -> Result<u32, Refusal> {
        index_record::rollback::rollback_frames(
            SETTINGS,
            &mut self.header,
            &self.pages,
            &self.frames,
            &mut self.hash,
            frame,
        )
    }

    pub fn find(&self, page: u64, min_frame: u64, max_frame: u64) -> Result<Option<u64>, Refusal> {
        let looked = index_find::find::find_frame(
            SETTINGS,
            self.header,
            &self.pages,
            &self.frames,
            &self.hash,
            page,
            min_frame,
            max_frame,
            None,
        )?;
        Ok(looked.found)
    }

    // How many pairs are listed.
    pub fn list(
        &self,
        min_frame: u64,
        max_frame: u64,
        pages: &mut [u64],
        frames: &mut [u64],
    ) -> Result<usize, Refusal> {
        list_latest::iter_latest_frames(
            SETTINGS,
            self.header,
            &self.pages,
            &self.frames,
            &self.hash,
            min_frame,
            max_frame,
            pages,
            frames,
        )
    }
}
