// The map of a block's cells: a bit for each cell, 0 where the cell is known to be used; and a bit for each of the
// words of these bits, 0 where the word is 0. At first every bit is 1: nothing is known. A search so looks at no more
// than two words of the first and the two of the second, however many cells are used.
ghost use Rattle.std.specs.Prelude.{◌≡◌, ◌+◌, ◌*◌, ◌/◌, ◌%◌, ◌<◌, ◌≤◌, length};
ghost use Rattle.wal_types.specs.Settings.{block_cells};
ghost use Rattle.index_hash.specs.Block.{empty_cell};
ghost use Rattle.index_rebuild.specs.InnerMap.{Clear, UpTo, WayTo, WordsTell, Tells, without_bit, words_left};

use index_hash::BLOCK_CELLS;
use index_search::empty;

// How many words the bits of the cells are, and with the bits of these words all of the map.
const CELL_WORDS: usize = 128;

pub const MAP_WORDS: usize = CELL_WORDS + 2;

// The first place of a row of words, in this word of it and from its bit `first` on, whose bit is 1, if one is. (Word
// and bit: with one number for both a rebuild of 1 to 100 pages takes 2 to 7 % longer.)
fn next_in_word(row: &[u64], word: usize, first: usize) -> Option<usize>
    requires { ((word < length row.now) × (length row.now ≤ 128)) × (first < 64) }
    ensures { UpTo (Clear row.now) (64 * word + first) (64 * word + 64) result }
{
    let bit = first + word_bits::lowest_bit(row[word] >> first) as usize;
    if bit < 64 {
        return Some(64 * word + bit);
    }
    None
}

// The first place from this one on, in two words, whose bit is 1, if one is.
fn next_in_two(words: &[u64; 2], from: usize) -> Option<usize>
    requires { from < 64 }
    ensures { UpTo (Clear words.now) from 128 result }
{
    if let Some(word) = next_in_word(words, 0, from) {
        return Some(word);
    }
    next_in_word(words, 1, 0)
}

// The first word from this one on that is not known to be 0, round at the end; none where none is before the start's own
// word is reached again. Here `from` counts on round the end. (Two cases: with the word by its number, from / 64, a
// rebuild of 1 or 10 pages takes 9 % longer.)
fn next_word(words: &[u64; 2], from: usize) -> Option<usize>
    ensures { WayTo (Clear words.now) 128 (from % 128) result }
{
    let from = from % CELL_WORDS;
    if from < 64 {
        return next_in_two(words, from);
    }
    let word = next_in_two(&[words[1], words[0]], from - 64)?;
    Some((64 + word) % CELL_WORDS)
}

// The first cell from a page's home on that is not known to be used, if the map tells of one.
fn next_cell(cells: &[u64; CELL_WORDS], words: &[u64; 2], home: usize) -> Option<usize>
    requires { (home < block_cells) × WordsTell cells.now words.now }
    ensures { WayTo (Clear cells.now) block_cells home result }
{
    if let Some(cell) = next_in_word(cells, home / 64, home % 64) {
        return Some(cell);
    }
    let word = next_word(words, home / 64 + 1)?;
    next_in_word(cells, word, 0)
}

// The bit of a used cell becomes 0, and with the last one of a word the word's own. (Of any two rows, whatever they tell.)
pub fn drop_cell(cells: &mut [u64; CELL_WORDS], words: &mut [u64; 2], cell: usize)
    requires { cell < block_cells }
    ensures { (cells.new ≡ without_bit cells.old cell) × (words.new ≡ words_left cells.new words.old (cell / 64)) }
{
    let word = cell / 64;
    let left = word_bits::without_bit(cells[word], cell);
    cells[word] = left;
    if left == 0 {
        words[word / 64] = word_bits::without_bit(words[word / 64], word);
    }
}

// The cell where the page's entry goes, by the map. A cell that the map did not know to be used is dropped from it, each
// once, so that all searches of a rebuild together pass over a used cell once. (A turn for each cell at most: a while let
// reads no plainer, and would need the number of bits that are left. A call takes each entry four instructions more.)
#[inline(always)]
pub fn empty_by_map(
    hash: &[u16; BLOCK_CELLS],
    cells: &mut [u64; CELL_WORDS],
    words: &mut [u64; 2],
    page_id: u64,
) -> Option<usize>
    requires { WordsTell cells.old words.old × Tells hash.now cells.old }
    ensures { (result ≡ empty_cell hash.now page_id) × (WordsTell cells.new words.new × Tells hash.now cells.new) }
{
    let home = index_hash::hash_page_id(page_id);
    for _ in 0..BLOCK_CELLS {
        let Some(cell) = next_cell(cells, words, home) else {
            return empty::far_empty_cell(hash, page_id);
        };
        if hash[cell] == 0 {
            return Some(cell);
        }
        drop_cell(cells, words, cell);
    }
    empty::far_empty_cell(hash, page_id)
}

// The map of a rebuild: its two rows, of which one tells of the other.
#[derive(Drop)]
pub struct CellMap {
    cells: [u64; CELL_WORDS],
    words: [u64; 2],
    ghost words_tell: { WordsTell cells words },
}

impl CellMap {
    // Nothing is known.
    pub fn new() -> CellMap
        ensures { (hash : _) → Tells hash result.cells }
    {
        CellMap {
            cells: [u64::MAX; CELL_WORDS],
            words: [u64::MAX; 2],
        }
    }

    // A used cell is dropped.
    pub fn drop_cell(&mut self, cell: usize)
        requires { cell < block_cells }
        ensures { (self.new.cells ≡ without_bit self.old.cells cell) × (self.new.words ≡ words_left self.new.cells self.old.words (cell / 64)) }
    {
        drop_cell(&mut self.cells, &mut self.words, cell);
    }

    // The cell where the page's entry goes.
    pub fn empty_cell(&mut self, hash: &[u16; BLOCK_CELLS], page_id: u64) -> Option<usize>
        requires { Tells hash.now self.old.cells }
        ensures { (result ≡ empty_cell hash.now page_id) × Tells hash.now self.new.cells }
    {
        empty_by_map(hash, &mut self.cells, &mut self.words, page_id)
    }
}
