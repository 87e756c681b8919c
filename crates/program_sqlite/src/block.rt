// A recorded block: its pages and hash cells, and how the cells differ from those that the pages give.
ghost use Rattle.std.specs.Prelude.{◌≤◌};
ghost use Rattle.wal_types.specs.Settings.{block_entries};

use index_hash::{BLOCK_CELLS, BLOCK_ENTRIES};
use program_lines::line::number;

// Arrays: so many pages and cells a block has, and nothing is allocated.
#[derive(Drop)]
pub struct Block {
    pages: [u64; BLOCK_ENTRIES],
    entries: usize,
    cells: [u16; BLOCK_CELLS],
    ghost fits: { entries ≤ block_entries },
}

impl Block {
    pub fn new() -> Block {
        Block {
            pages: [0; BLOCK_ENTRIES],
            entries: 0,
            cells: [0; BLOCK_CELLS],
        }
    }

    pub fn entries(&self) -> usize {
        self.entries
    }

    // The page of one entry more, if it fits.
    fn take_page(&mut self, page: u64) {
        if self.entries < BLOCK_ENTRIES {
            self.pages[self.entries] = page;
            self.entries += 1;
        }
    }

    // A used cell and its value.
    fn take_cell(&mut self, cell: u64, value: u64) {
        let Ok(value) = u16::try_from(value) else {
            return;
        };
        if let Some(cell) = self.cells.get_mut(cell as usize) {
            *cell = value;
        }
    }

    // Takes in a line: one field is a page, two are a cell and its value.
    pub fn take_line(&mut self, line: &[u8]) {
        let mut fields = line.split(|b| *b == b' ').map(number);
        match (fields.next(), fields.next(), fields.next()) {
            (Some(Some(page)), None, _) => self.take_page(page),
            (Some(Some(cell)), Some(Some(value)), None) => self.take_cell(cell, value),
            _ => {}
        }
    }

    // How many cells differ after the hash is rebuilt from the pages.
    pub fn differences(&self) -> usize {
        let mut hash = [0; BLOCK_CELLS];
        index_rebuild::rebuild::rebuild_frame_index_block_hash(
            &mut hash,
            &self.pages[..self.entries],
        );
        hash.iter().zip(&self.cells).filter(|(a, b)| a != b).count()
    }
}
