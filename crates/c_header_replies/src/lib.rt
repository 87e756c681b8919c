// The lock calls' answers in numbers, for the C functions.
#![tactic(auto)]

pub mod lock_reply;
