// The program's lines in fixed columns: what a line asks, and the lines of answers.
#![tactic(auto)]

pub mod answer;
pub mod field;
pub mod request;
