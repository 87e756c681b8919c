// What the C functions of the reader calls do; c_readers_c exports them. Each reads its numbers, makes one proved call and
// writes the answer as numbers. Those on the registry look at it first, and change a record where the call says so.
#![tactic(auto)]

pub mod reader_calls;
