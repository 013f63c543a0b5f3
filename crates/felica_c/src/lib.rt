// What the seven functions for C share: what they answer, and a result told in bytes and numbers. C has no generics, so that each of the three parsers and the three
// list readers is an exported function, with its own definition in the contract. Each is a crate and an object file of its own, since the compiler does not inline a
// parser that two functions call. Their parameters are those of include/felica.h.
#![tactic(auto)]

pub mod answer;
mod fields;
pub mod tell;
