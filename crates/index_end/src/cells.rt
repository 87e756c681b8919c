// The header's cells that a record works on, apart from the rest of it.
ghost use Rattle.std.specs.Prelude.{◌≡◌, ◌+◌, ◌<◌, false};
ghost use Rattle.wal_types.specs.Memory.{frame_index_len_cell, frame_index_overflowed_cell};
ghost use Rattle.index_end.specs.Cells.{cells_of, cells_with, with_cells};
ghost use Rattle.index_end.specs.InnerChange.{cells_change};

use wal_types::Header;

// What a record works out before it stores. The published frame, max_frame, is only read.
#[derive(Clone, Copy)]
pub struct IndexCells {
    pub frame_index_blocks: u32,
    pub frame_index_len: u32,
    pub frame_index_overflowed: u32,
    pub max_frame: u64,
}

impl From<Header> for IndexCells {
    ghost from_gives = { λ header result. result ≡ cells_of header };

    fn from(header: Header) -> IndexCells {
        IndexCells {
            frame_index_blocks: header.frame_index_blocks,
            frame_index_len: header.frame_index_len,
            frame_index_overflowed: header.frame_index_overflowed,
            max_frame: header.max_frame,
        }
    }
}

// Whether the header with these cells in it is another one. Where it is not, there is nothing to store.
#[tactic(auto, using(crate::proofs::Change::told))]
pub fn cells_change(header: Header, cells: IndexCells) -> bool
    ensures { (result ≡ cells_change cells header) × (result ≡ false → with_cells cells header ≡ header) }
{
    cells.frame_index_len != header.frame_index_len
        || cells.frame_index_overflowed != header.frame_index_overflowed
        || cells.frame_index_blocks != header.frame_index_blocks
}

impl IndexCells {
    // They go into the header, but for the published frame.
    pub fn put_in(self, header: &mut Header)
        ensures { header.new ≡ with_cells self header.old }
    {
        header.frame_index_blocks = self.frame_index_blocks;
        header.frame_index_len = self.frame_index_len;
        header.frame_index_overflowed = self.frame_index_overflowed;
    }

    // The same, but where they are there already nothing is stored, so that such a call can be made on memory that is mapped
    // read-only. (A stored record does not ask: it writes its entry in any case.)
    pub fn put_changes_in(self, header: &mut Header)
        ensures { header.new ≡ with_cells self header.old }
    {
        if cells_change(*header, self) {
            self.put_in(header);
        }
    }

    // With an entry more.
    pub fn longer(self) -> IndexCells
        requires { self.frame_index_len < 65536 }
        ensures { result ≡ cells_with frame_index_len_cell (self.frame_index_len + 1) self }
    {
        IndexCells {
            frame_index_len: self.frame_index_len + 1,
            ..self
        }
    }

    // With the flag set.
    pub fn overflowed(self) -> IndexCells
        ensures { result ≡ cells_with frame_index_overflowed_cell 1 self }
    {
        IndexCells {
            frame_index_overflowed: 1,
            ..self
        }
    }
}
