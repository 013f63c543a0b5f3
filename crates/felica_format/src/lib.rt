// The FeliCa Standard command format: the constants that the commands use, over the definitions in specs/ and their laws in proofs/.
#![tactic(auto)]

pub mod classes;
pub mod constants;
pub mod error;
