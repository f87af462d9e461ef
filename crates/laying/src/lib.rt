// What laying bytes does to a buffer, with no code.
#![tactic(auto)]
