// The counter as an instance of the Tree Algorithm, with no code.
#![tactic(auto)]
