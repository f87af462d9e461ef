// Demand 3 said of the bytes that report writes, with no code.
#![tactic(auto)]
