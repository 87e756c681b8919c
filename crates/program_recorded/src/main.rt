// Makes calls whose answers by the Rust are recorded. Standard input has a call to a line: a row of decimal numbers with
// single spaces between, the call's number and then all that the call is given, cells and arguments (`calls`). The
// program answers a row: the refusal or 0, the answer's numbers, and every cell that the call could have changed. A line
// that starts with # is a comment and has no answer. Any other line answers `?`.
//
// Calls that are lent the registry of shared marks are not here: their recorded answers are held against the static
// library (./compare --recorded).
#![tactic(auto)]

mod calls;
mod header_calls;
mod reader_calls;

use calls::Answer;
use program_lines::input::answer_lines;
use program_lines::line::number;
use std::io;
use std::io::Write;

// The longest row, of publish_commit.
const ROW_LEN: usize = 18;

// A row has at most 18 numbers of 20 digits: a line that is cut to so many bytes is none.
const LINE_LIMIT: usize = 1024;

// Makes the call of a line, whose numbers go into an array: nothing is allocated. None: no call has so many, or a field is
// no number.
fn perform(line: &[u8]) -> Option<Answer> {
    let mut row = [0; ROW_LEN];
    let mut len = 0;
    for field in line.split(|b| *b == b' ') {
        if len == ROW_LEN {
            return None;
        }
        row[len] = number(field)?;
        len += 1;
    }
    calls::perform(&row[..len])
}

fn answer<W: Write>(out: &mut W, line: &[u8]) -> io::Result<()> {
    if line.starts_with(b"#") {
        return Ok(());
    }
    match perform(line) {
        Some(answer) => writeln!(out, "{answer}"),
        None => writeln!(out, "?"),
    }
}

fn main(rt: HostRuntime) -> io::Result<()> {
    answer_lines(rt.stdin(), rt.stdout(), &mut [0; LINE_LIMIT], |line, out| {
        answer(out, line)
    })
}
