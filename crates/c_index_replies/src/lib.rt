// The index calls' answers in numbers, for the C functions.
#![tactic(auto)]

pub mod index_reply;
pub mod lookup_reply;
pub mod search_reply;
