// The calls that change the frame index: a record puts an entry at its end, a rollback drops entries from there.
#![tactic(auto)]

pub mod record;
pub mod rollback;
