// Pieces and directory: where a piece stands, its entry, and moves within the lent arrays. Nothing here knows the grammar.
#![tactic(auto)]

pub mod arrays; // arrays.rt: zeros, entries, and moves within a lent array
pub mod pieces; // pieces.rt: where a piece stands, and what reading it gives
