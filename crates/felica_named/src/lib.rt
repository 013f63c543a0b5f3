// The fields of a writer's call, `name=value` each behind one space: noted by their names, then read as what the writer takes.
#![tactic(auto)]

pub mod fault;
pub mod fixed;
mod form;
pub mod lists;
pub mod names;
pub mod notes;
mod stray;
mod values;
