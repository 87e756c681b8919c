// A reader that takes a slot.
#![tactic(auto)]

pub mod register;
pub mod stale;
