// Searches over the entries alone: a frame of a page between two frames, and the page's nearest frame to a given one. They
// look at every entry below the length, published or not. The hash is not lent, and frames that do not rise, as in damaged
// memory, are searched like any: no entry is passed over because of the frames beside it.
#![tactic(auto)]

pub mod between;
pub mod nearest;
mod search;
