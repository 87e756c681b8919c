// What live readers hold back: the floor, and whether the database file has a reader.
#![tactic(auto)]

pub mod floor;
