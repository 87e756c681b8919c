// The last part of a list: the first entry of each page, and the pairs.
#![tactic(auto)]

pub mod choose;
