// The walk along a payload: a position, and one step for each part of a layout.
#![tactic(auto)]

pub mod cursor;
pub mod endings;
