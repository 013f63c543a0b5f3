// Text in lent buffers: hexadecimal and decimal digits put into one, and a byte found in one.
#![tactic(auto)]

pub mod find;
pub mod hex;
pub mod put;
