// The first part of a list: of the visible entries that the hash names, at least each page's latest.
#![tactic(auto)]

pub mod gather;
