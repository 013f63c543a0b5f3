// Calls, a line each: a line is read as a call with its bytes, or as what is wrong with it.
#![tactic(auto)]

pub mod bytes;
pub mod call;
pub mod fault;
pub mod field;
mod number;
pub mod sizes;
pub mod source;
pub mod write;
