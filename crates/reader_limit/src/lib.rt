// The copy-back limit.
#![tactic(auto)]

pub mod limit;
