// Demand 3 for every accepted recording, with no code.
#![tactic(auto)]
