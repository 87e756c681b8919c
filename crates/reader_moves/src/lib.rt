// A reader that has a slot: its move to another mark, and the release of its slot.
#![tactic(auto)]

pub mod update;
