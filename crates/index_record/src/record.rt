// record_frame: an entry more at the end of the index.
ghost use Rattle.std.specs.Prelude.{◌<◌, length};
ghost use Rattle.wal_types.specs.Settings.{block_cells};
ghost use Rattle.index_find.specs.Index.{HasRoom, IndexCall};
ghost use Rattle.index_record.specs.Record.{record_frame, record_answer};
ghost use Rattle.index_record.specs.InnerEntered.{Entered};

use index_end::cells::IndexCells;
use index_end::place;
use index_find::index;
use index_hash::BLOCK_ENTRIES;
use wal_types::Header;
use wal_types::refusal::Refusal;
use wal_types::settings::IndexSettings;

// What became of the entry.
#[derive(Clone, Copy)]
pub enum Recorded {
    Stored,
    Dropped,
}

// Writes the entry at the end of the index of these cells, with its name in the cell of its block's hash. The cells, with the
// entry counted, go into the header.
fn enter(
    cells: IndexCells,
    header: &mut Header,
    pages: &mut [u64],
    frames: &mut [u64],
    hash: &mut [u16],
    cell: usize,
    page_id: u64,
    frame_id: u64,
)
    requires { HasRoom cells.frame_index_len (length pages.old) (length frames.old) (length hash.old) × (cell < block_cells) }
    ensures { Entered cells cell page_id frame_id header.old pages.old frames.old hash.old header.new pages.new frames.new hash.new }
{
    let n = cells.frame_index_len as usize;
    pages[n] = page_id;
    frames[n] = frame_id;
    let k = n / BLOCK_ENTRIES;
    let local_index = n % BLOCK_ENTRIES;
    index::name_in_block(hash, k, cell, local_index);
    cells.longer().put_in(header);
}

// Appends the entry (page_id, frame_id) to the index. A refused one changes nothing.
pub fn record_frame(
    settings: IndexSettings,
    header: &mut Header,
    pages: &mut [u64],
    frames: &mut [u64],
    hash: &mut [u16],
    page_id: u64,
    frame_id: u64,
    grow: bool,
) -> Result<Recorded, Refusal>
    ensures { IndexCall (record_frame settings.capacity settings.max_blocks page_id frame_id grow) header.old pages.old frames.old hash.old (record_answer result) header.new pages.new frames.new hash.new }
{
    index::check_index(settings, *header, pages, frames, hash)?;
    let start = place::started_cells(*header, frame_id);
    let Some(grown) = place::place_entry(settings, start, grow) else {
        start.overflowed().put_changes_in(header);
        return Ok(Recorded::Dropped);
    };
    let n = grown.frame_index_len as usize;
    if place::is_out_of_order(&frames[..n], frame_id) {
        return Err(Refusal::FrameOrder);
    }
    if n % BLOCK_ENTRIES == 0 {
        index::clear_block(hash, n / BLOCK_ENTRIES);
        let home = index_hash::hash_page_id(page_id);
        enter(grown, header, pages, frames, hash, home, page_id, frame_id);
        return Ok(Recorded::Stored);
    }
    let k = n / BLOCK_ENTRIES;
    let Some(cell) = index::cell_in_block(hash, k, page_id) else {
        return Err(Refusal::HashFull);
    };
    enter(grown, header, pages, frames, hash, cell, page_id, frame_id);
    Ok(Recorded::Stored)
}
