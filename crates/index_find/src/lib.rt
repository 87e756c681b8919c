// The shared frame index: which frame of the log holds which page. Entries stand in the order of their frames, in blocks
// of 4,096; each block has a hash table over its entries' pages. Entry n is the pair (pages[n], frames[n]).
#![tactic(auto)]

pub mod find;
pub mod index;
