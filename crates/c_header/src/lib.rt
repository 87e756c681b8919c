// The C functions of the header's calls. Each reads its numbers, makes one proved call and writes the answer as numbers.
#![tactic(auto)]

pub mod header_calls;
