// Holds the page hash against a block of a wal-index that SQLite wrote. Standard input has the block as text: the pages
// of its entries in order, one to a line, then each used hash cell with its value. The block's hash is rebuilt from the
// pages, and all 8,192 cells are compared. A line that starts with # is a comment.
#![tactic(auto)]

mod block;

ghost use Rattle.std.specs.Prelude.{◌≤◌, length, IfOk};

use block::Block;
use std::io;
use std::io::Read;

// So many bytes are read. A line that ends no sooner may be cut, and is left out.
const TEXT_LEN: usize = 65536;

// Reads until the text is full or the input ends, and answers how many bytes it has. (`read_to_end` would allocate.)
fn read_text<R: Read>(source: &mut R, text: &mut [u8]) -> io::Result<usize>
    ensures { IfOk result (λ len. len ≤ length text.new) }
{
    let mut len = 0;
    while len < text.len() {
        let got = source.read(&mut text[len..])?;
        if got == 0 {
            break;
        }
        len += got;
    }
    Ok(len)
}

fn read_block<R: Read>(source: &mut R) -> io::Result<Block> {
    let mut text = [0; TEXT_LEN];
    let len = read_text(source, &mut text)?;
    let mut lines = text[..len].split(|b| *b == b'\n');
    if len == TEXT_LEN {
        lines.next_back();
    }
    let mut block = Block::new();
    for line in lines {
        block.take_line(line);
    }
    Ok(block)
}

fn main(rt: HostRuntime) -> io::Result<()> {
    let block = read_block(&mut rt.stdin())?;
    let entries = block.entries();
    let differences = block.differences();
    println!(rt; "{entries} entries, {differences} differences")
}
