// Reads calls on the frame index from standard input, a line in fixed columns for each, and writes the answers to
// standard output (document 01, "Program and its columns").
#![tactic(auto)]

mod answers;
mod index;

use index::Index;
use program_columns::request::read_request;
use program_lines::input::answer_lines;
use std::io;

// One byte more than the longest form, F's 37: a longer line is cut, and its 38 bytes are no form.
const LINE_LIMIT: usize = 38;

fn main(rt: HostRuntime) -> io::Result<()> {
    let mut index = Index::new();
    answer_lines(rt.stdin(), rt.stdout(), &mut [0; LINE_LIMIT], |line, out| {
        answers::perform(out, &mut index, read_request(line))
    })
}
