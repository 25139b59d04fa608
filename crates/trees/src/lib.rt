// Definitions alone: a node as a tree, and the steps from node to node.
#![tactic(auto)]
