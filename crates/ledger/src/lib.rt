// What the replay keeps beside the memory, with no code.
#![tactic(auto)]
