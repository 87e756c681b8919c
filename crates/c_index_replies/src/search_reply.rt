// The answer of a search over the entries in numbers.
ghost use Rattle.std.specs.Prelude.{◌≡◌};
ghost use Rattle.index_scan.specs.Scan.{scan_answer};
ghost use Rattle.c_index_replies.specs.InnerSearchReply.{frame_reply};

use wal_types::refusal::Refusal;

// found: 1 if there is a frame, and then frame is it; else both are 0.
#[repr(C)]
#[derive(Clone, Copy)]
pub struct FrameReply {
    pub refusal: u32,
    pub found: u32,
    pub frame: u64,
}

impl From<Result<Option<u64>, Refusal>> for FrameReply {
    ghost from_gives = { λ searched result. result ≡ frame_reply (scan_answer searched) };

    fn from(searched: Result<Option<u64>, Refusal>) -> FrameReply {
        match searched {
            Ok(Some(frame)) => FrameReply {
                refusal: 0,
                found: 1,
                frame,
            },
            Ok(None) => FrameReply {
                refusal: 0,
                found: 0, // none
                frame: 0,
            },
            Err(refusal) => FrameReply {
                refusal: u32::from(refusal),
                found: 0,
                frame: 0,
            },
        }
    }
}
