// A block's hash built anew. Where few pages are written over and over, each entry's search for an empty cell passes
// over the cells of all entries of its page before it, and a rebuild that starts each search at the home takes time by
// the square of the entries. But cells are only ever filled after the clearing: what a search has passed stays used. So
// once many entries have ended far from their homes, a map of the cells that are known to be used tells where a search
// goes on.
#![tactic(auto)]

pub mod map;
pub mod rebuild;
