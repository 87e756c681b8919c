// Lines of text: standard input taken line by line, answers that wait before they are written, and the numbers of a line.
#![tactic(auto)]

pub mod input;
pub mod line;
pub mod output;
mod window;
