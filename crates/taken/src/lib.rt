// Which additions are in a node, told by counts, with no code.
#![tactic(auto)]
