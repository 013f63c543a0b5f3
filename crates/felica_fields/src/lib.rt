// The fields of an answer and the text of a refusal, put into a lent buffer.
#![tactic(auto)]

mod entry;
pub mod field;
pub mod list;
pub mod refusal;
