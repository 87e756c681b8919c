// The answers to the calls.
use crate::index::{ENTRIES, Index};
use program_columns::answer::{write_answer, write_other_form, write_pair};
use program_columns::request::Request;
use std::io;
use std::io::Write;
use wal_types::refusal::Refusal;

// What a call tells, if it tells anything; or why it is refused.
fn answer<W: Write>(out: &mut W, letter: u8, told: Result<Option<u64>, Refusal>) -> io::Result<()> {
    match told {
        Ok(value) => write_answer(out, letter, 0, value),
        Err(refusal) => write_answer(out, letter, u32::from(refusal), None),
    }
}

// The count, and then the pairs.
fn list<W: Write>(out: &mut W, index: &Index, min_frame: u64, max_frame: u64) -> io::Result<()> {
    let mut pages = [0; ENTRIES];
    let mut frames = [0; ENTRIES];
    let listed = index.list(min_frame, max_frame, &mut pages, &mut frames);
    answer(out, b'L', listed.map(|count| Some(count as u64)))?;
    let count = listed.unwrap_or(0);
    for (page, frame) in pages.iter().zip(&frames).take(count) {
        write_pair(out, *page, *frame)?;
    }
    Ok(())
}

// Makes the call that is asked for, and answers it.
pub fn perform<W: Write>(
    out: &mut W,
    index: &mut Index,
    request: Option<Request>,
) -> io::Result<()> {
    match request {
        // 1 stored, 0 dropped.
        Some(Request::Record(page, frame)) => {
            let told = index.record(page, frame);
            answer(out, b'R', told.map(|stored| Some(u64::from(stored))))
        }
        // The length kept.
        Some(Request::Rollback(frame)) => {
            let told = index.rollback(frame);
            answer(out, b'B', told.map(|len| Some(u64::from(len))))
        }
        // The frame, or blanks for none.
        Some(Request::Find(page, min_frame, max_frame)) => {
            answer(out, b'F', index.find(page, min_frame, max_frame))
        }
        Some(Request::List(min_frame, max_frame)) => list(out, index, min_frame, max_frame),
        None => write_other_form(out),
    }
}
