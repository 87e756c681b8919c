// Marks that several connections of a process share: one slot for all of them, with a count of its holders.
#![tactic(auto)]

pub mod shared;
#[cfg(test)]
mod tests;
