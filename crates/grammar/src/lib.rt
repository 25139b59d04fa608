// The definitions of the grammar: there is no code, and the check is of specs/.
#![tactic(auto)]
