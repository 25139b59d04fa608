// Definitions of programs over a text, and their laws: there is no code, and the check is of specs/.
#![tactic(auto)]
