// Reader slots: a reader's mark in a numbered slot of the shared memory, held by a byte lock. Here is what all calls on
// them share, and the search for a slot that can be taken.
#![tactic(auto)]

pub mod available;
pub mod slots;
