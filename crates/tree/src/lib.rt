// The Tree Algorithm in the paper's generality, with no code.
#![tactic(auto)]
