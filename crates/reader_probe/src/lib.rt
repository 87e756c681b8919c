// Which slots have a live reader, and the refusals of calls that probe slots.
#![tactic(auto)]

pub mod live;
pub mod probe;
