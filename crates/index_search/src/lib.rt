// Searches in one block's hash table. Where few pages are written over and over, thousands of cells in a row are used,
// and a search from a page's home passes over them all. So a search looks at the near cells one by one, as most end
// there, and then at many cells at once. It answers what the search cell by cell answers, on any contents.
#![tactic(auto)]

pub mod empty;
pub mod probe;
pub mod run;
