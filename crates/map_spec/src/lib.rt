// Definitions alone: the block map, what it shows and its text.
#![tactic(auto)]
