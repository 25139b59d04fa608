// The numbers that literals write, folded digit by digit: integers of 128 bits, and the bits of floats. 01: "Types and values", question 7.
#![tactic(auto)]

pub mod hex;
pub mod integer;
pub mod literal;
