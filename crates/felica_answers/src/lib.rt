// The line that answers a call: what the parser, the list reader or the writer gives, or how many elements were long, written into a lent buffer.
#![tactic(auto)]

pub mod answer;
mod fields;
pub mod lists;
pub mod long;
pub mod written;
