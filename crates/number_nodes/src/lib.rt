// Numeric constants ("A numeric constant" of parser.rs), and the nodes that they become. 01: "Types and values", questions 7 and 17.
#![tactic(auto)]

pub mod constants; // constants.rt: a numeric constant, or none
pub mod nodes; // nodes.rt: a literal as its node

pub use constants::numeric;
pub use nodes::{f0x_value, float_node, hex_value, int_node, numeral};
