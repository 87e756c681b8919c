// The calls by their numbers, with what stands behind the number in a row.
//
// Header: the 13 cells in the order of `Header`. Slots: n, mode, the bitmap's word, two frames, two owners, two local
// owners; the card's length and two bytes of it. Mode is 0 for LinuxOfd and 1 for ProcessScopedFcntl.
//
//    1 publish_commit             header, max_frame, checksum_1, checksum_2, transaction_count
//    2 publish_backfill           header, nbackfills
//    3 bump_checkpoint_seq        header
//    4 bump_checkpoint_epoch      header
//    5 try_acquire_writer         header, the own cell of the lock, owner, the byte lock's answer
//    6 try_acquire_checkpoint     the same
//    7 release_writer             header, the own cell of the lock, mode, owner
//    8 release_checkpoint         the same
//    9 register_reader            slots, owner, mark
//   10 min_active_reader_frame    slots
//   11 has_active_db_file_reader  slots
//   12 copy_back_limit            slots, the published max_frame, nbackfills
//
// An answer's row on the header: the refusal or 0, the answer (a counter, or 1 for a lock that was taken, else 0), the
// header, and the own cell for a lock. On slots: the refusal or 0, whether there is an answer, which slot, mark or limit
// it is, the bitmap's word, frames, owners and local owners.
use crate::header_calls::HeaderAnswer;
use crate::reader_calls::ReaderAnswer;
use crate::{header_calls, reader_calls};
use std::fmt;

#[derive(Drop)]
pub enum Answer {
    OnHeader(HeaderAnswer),
    OnSlots(ReaderAnswer),
}

impl fmt::Display for Answer {
    fn fmt<W: fmt::Write>(&self, f: &mut fmt::Formatter<W>) -> fmt::Result {
        match self {
            Answer::OnHeader(answer) => write!(f, "{answer}"),
            Answer::OnSlots(answer) => write!(f, "{answer}"),
        }
    }
}

// Makes the call of a row. None: the row is of another form than all calls. (A call stays a number: it is the recorded rows' own,
// and is matched once, with what stands behind it.)
pub fn perform(row: &[u64]) -> Option<Answer> {
    let (call, given) = row.split_first()?;
    if *call <= 8 {
        Some(Answer::OnHeader(header_calls::perform(*call, given)?))
    } else {
        Some(Answer::OnSlots(reader_calls::perform(*call, given)?))
    }
}
