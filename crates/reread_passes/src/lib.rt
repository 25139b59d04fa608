// The two passes of a re-reading.
#![tactic(auto)]

pub mod first; // first.rt: the first pass
pub mod numbered; // numbered.rt: one piece by its number
pub mod second; // second.rt: the second pass
