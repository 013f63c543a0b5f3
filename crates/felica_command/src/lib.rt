// The commands as types: codes and numbers in their wrappers, the commands with their fields, and the result of a parse.
#![tactic(auto)]

pub mod command;
pub mod fixed;
pub mod lists;
pub mod types;
