// The reader calls' answers in numbers, for the C functions: the replies, and the settings read from numbers.
#![tactic(auto)]

ghost use Rattle.std.specs.Prelude.{◌≡◌};
ghost use Rattle.wal_types.specs.Refusal.{refused_number};
ghost use Rattle.wal_types.specs.Mode.{mode_given};
ghost use Rattle.reader_register.specs.Register.{register_answer};
ghost use Rattle.reader_moves.specs.Update.{update_answer};
ghost use Rattle.reader_floor.specs.Floor.{min_frame_answer, db_file_answer};
ghost use Rattle.reader_limit.specs.Limit.{limit_answer};
ghost use Rattle.reader_shared.specs.Shared.{share_answer};
ghost use Rattle.c_reader_replies.specs.ReaderReply.{settings_given, no_slot, held_answer, reader_reply, floor_reply, db_file_reply, limit_reply};

use reader_shared::shared::SharePlan;
use wal_types::SharedWalOwnershipMode;
use wal_types::refusal::{Refusal, refusal_told};
use wal_types::settings::{Reader, ReaderSettings};

// The answer of a registration or a move in numbers. refusal: 0, or the number of the refusal. taken: 1 if a slot is held,
// and then slot, owner and mark are its number, its owner and its mark; else 0, and they are 0.
#[repr(C)]
#[derive(Clone, Copy)]
pub struct ReaderReply {
    pub refusal: u32,
    pub taken: u32,
    pub slot: u64,
    pub owner: u64,
    pub mark: u64,
}

// The answer of the floor in numbers. found: 1 if there is a floor, and then mark is it; else 0.
#[repr(C)]
#[derive(Clone, Copy)]
pub struct FloorReply {
    pub refusal: u32,
    pub found: u32,
    pub mark: u64,
}

// active: 1 if some reader reads only the database file.
#[repr(C)]
#[derive(Clone, Copy)]
pub struct DbFileReply {
    pub refusal: u32,
    pub active: u32,
}

// The answer of the copy-back limit in numbers. limit is the last frame that may be copied, 0 after a refusal.
#[repr(C)]
#[derive(Clone, Copy)]
pub struct LimitReply {
    pub refusal: u32,
    pub limit: u64,
}

// The settings of two numbers. Where mode is no lock mode's number there are 0 slots, and every call is refused with 1. (A Result
// would have each C function end in two ways: so the call itself refuses, by the test that it makes in any case.)
pub fn settings_of(n: usize, mode: u32) -> ReaderSettings
    ensures { result ≡ settings_given (mode_given mode) n }
{
    match SharedWalOwnershipMode::try_from(mode) {
        Ok(given) => ReaderSettings { n, mode: given },
        Err(_) => ReaderSettings {
            n: 0,
            mode: SharedWalOwnershipMode::LinuxOfd,
        },
    }
}

// A slot that is held, with its reader.
#[derive(Clone, Copy)]
struct HeldSlot {
    slot: u64,
    reader: Reader,
}

// refusal is 0 where there is none.
fn without_slot(refusal: u32) -> ReaderReply
    ensures { result ≡ no_slot refusal }
{
    ReaderReply {
        refusal,
        taken: 0,
        slot: 0,
        owner: 0,
        mark: 0,
    }
}

fn held_told(answer: Result<Option<HeldSlot>, Refusal>) -> ReaderReply
    ensures { result ≡ reader_reply (held_answer answer) }
{
    match answer {
        Ok(Some(held)) => ReaderReply {
            refusal: 0,
            taken: 1,
            slot: held.slot,
            owner: held.reader.owner.0,
            mark: held.reader.mark,
        },
        Ok(None) => without_slot(0),
        Err(refusal) => without_slot(u32::from(refusal)),
    }
}

pub fn register_told(answer: Result<Option<usize>, Refusal>, reader: Reader) -> ReaderReply
    ensures { result ≡ reader_reply (register_answer reader.owner.0 reader.mark answer) }
{
    let slot_held = |slot| HeldSlot {
        slot: slot as u64,
        reader,
    };
    held_told(answer.map(|found| found.map(slot_held)))
}

pub fn move_told(answer: Result<(), Refusal>, slot: usize, reader: Reader) -> ReaderReply
    ensures { result ≡ reader_reply (update_answer slot reader.owner.0 reader.mark answer) }
{
    register_told(answer.map(|()| Some(slot)), reader)
}

impl From<Result<Option<SharePlan>, Refusal>> for ReaderReply {
    ghost from_gives = { λ answer reply. reply ≡ reader_reply (share_answer answer) };

    fn from(answer: Result<Option<SharePlan>, Refusal>) -> ReaderReply {
        let plan_held = |plan: SharePlan| HeldSlot {
            slot: u64::from(plan.taken.slot),
            reader: plan.taken.reader,
        };
        held_told(answer.map(|plan| plan.map(plan_held)))
    }
}

impl From<Result<Option<u64>, Refusal>> for FloorReply {
    ghost from_gives = { λ answer reply. reply ≡ floor_reply (min_frame_answer answer) };

    fn from(answer: Result<Option<u64>, Refusal>) -> FloorReply {
        let floor = answer.unwrap_or(None);
        FloorReply {
            refusal: refusal_told(answer),
            found: u32::from(floor.is_some()),
            mark: floor.unwrap_or(0),
        }
    }
}

impl From<Result<bool, Refusal>> for DbFileReply {
    ghost from_gives = { λ answer reply. reply ≡ db_file_reply (db_file_answer answer) };

    fn from(answer: Result<bool, Refusal>) -> DbFileReply {
        DbFileReply {
            refusal: refusal_told(answer),
            active: u32::from(answer.unwrap_or(false)),
        }
    }
}

impl From<Result<u64, Refusal>> for LimitReply {
    ghost from_gives = { λ answer reply. reply ≡ limit_reply (limit_answer answer) };

    fn from(answer: Result<u64, Refusal>) -> LimitReply {
        LimitReply {
            refusal: refusal_told(answer),
            limit: answer.unwrap_or(0),
        }
    }
}
