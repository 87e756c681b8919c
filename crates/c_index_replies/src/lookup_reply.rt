// The answers of a lookup and of a list in numbers, and a watermark read from numbers.
ghost use Rattle.std.specs.Prelude.{◌≡◌};
ghost use Rattle.index_find.specs.Find.{found_answer, cells_told};
ghost use Rattle.c_index_replies.specs.LookupReply.{find_reply, list_reply, watermark_given};

use index_find::find::Looked;
use wal_types::refusal::Refusal;

// The answer of a lookup in numbers. found: 1 if there is a frame. cells: how many hash cells were looked at.
#[repr(C)]
#[derive(Clone, Copy)]
pub struct FindReply {
    pub refusal: u32,
    pub found: u32,
    pub frame: u64,
    pub cells: u32,
}

// The answer of a list in numbers: how many pairs are in the first output cells.
#[repr(C)]
#[derive(Clone, Copy)]
pub struct ListReply {
    pub refusal: u32,
    pub count: u64,
}

impl From<Result<Looked, Refusal>> for FindReply {
    ghost from_gives = { λ looked result. result ≡ find_reply (found_answer looked) (cells_told looked) };

    fn from(looked: Result<Looked, Refusal>) -> FindReply {
        match looked {
            Ok(
                Looked {
                    found: Some(frame),
                    cells,
                },
            ) => FindReply {
                refusal: 0,
                found: 1,
                frame: frame,
                cells,
            },
            Ok(Looked { found: None, cells }) => FindReply {
                refusal: 0,
                found: 0,
                frame: 0,
                cells,
            },
            Err(refusal) => FindReply {
                refusal: u32::from(refusal),
                found: 0,
                frame: 0,
                cells: 0,
            },
        }
    }
}

impl From<Result<usize, Refusal>> for ListReply {
    ghost from_gives = { λ listed result. result ≡ list_reply listed };

    fn from(listed: Result<usize, Refusal>) -> ListReply {
        match listed {
            Ok(count) => ListReply {
                refusal: 0,
                count: count as u64,
            },
            Err(refusal) => ListReply {
                refusal: u32::from(refusal),
                count: 0,
            },
        }
    }
}

// The watermark, if there is one.
#[tactic(auto, unfolding(crate::specs::LookupReply::watermark_given))]
pub fn watermark_of(has_watermark: u32, watermark: u64) -> Option<u64>
    ensures { result ≡ watermark_given has_watermark watermark }
{
    (has_watermark != 0).then_some(watermark)
}
