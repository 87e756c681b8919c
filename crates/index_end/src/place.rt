// Where a record's entry goes and which frames are out of order; the cells that a record finds.
ghost use Rattle.std.specs.Prelude.{◌≡◌, ◌≤◌, length};
ghost use Rattle.index_end.specs.Place.{started, placed, out_of_order};

use crate::cells::IndexCells;
use wal_types::settings::IndexSettings;
use wal_types::{FRAME_INDEX_BLOCK_CAPACITY, Header};

// The cells that the entry finds. Frame 1 with nothing published resets the index.
#[tactic(auto, unfolding(crate::specs::Place::started))]
pub fn started_cells(header: Header, frame_id: u64) -> IndexCells
    ensures { result ≡ started frame_id header }
{
    let cells = IndexCells::from(header);
    if frame_id == 1 && header.max_frame == 0 {
        return IndexCells {
            frame_index_len: 0,
            frame_index_overflowed: 0,
            ..cells
        };
    }
    cells
}

// Where an entry goes: at the end of the index of the cells given, whose blocks may have grown; or nowhere. grow is the
// file's answer to a growth by one block.
#[tactic(auto, unfolding(crate::specs::Place::placed))]
pub fn place_entry(settings: IndexSettings, cells: IndexCells, grow: bool) -> Option<IndexCells>
    requires { (cells.frame_index_blocks ≤ settings.max_blocks) × (settings.max_blocks ≤ 16) }
    ensures { result ≡ placed settings.capacity settings.max_blocks grow cells }
{
    if settings.capacity <= cells.frame_index_len {
        return None;
    }
    if cells.frame_index_len < FRAME_INDEX_BLOCK_CAPACITY * cells.frame_index_blocks {
        return Some(cells);
    }
    if settings.max_blocks <= cells.frame_index_blocks || !grow {
        return None;
    }
    Some(IndexCells {
        frame_index_blocks: cells.frame_index_blocks + 1,
        ..cells
    })
}

// Whether the frame is not above the last one of the entries with these frames.
pub fn is_out_of_order(frames: &[u64], frame_id: u64) -> bool
    ensures { result ≡ out_of_order frame_id (length frames.now) frames.now }
{
    frames.last().is_some_and(|last| frame_id <= *last)
}
