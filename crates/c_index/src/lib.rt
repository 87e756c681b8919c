// The C functions of the frame index's calls. Each reads its numbers, makes one proved call and writes the answer as numbers.
#![tactic(auto)]

pub mod index_calls;
