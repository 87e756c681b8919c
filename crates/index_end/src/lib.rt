// The end of the index: the header's cells that tell where it is, where a record's entry goes, whether its frame is in
// order, and how many entries a rollback keeps.
#![tactic(auto)]

pub mod cells;
pub mod kept;
pub mod place;
