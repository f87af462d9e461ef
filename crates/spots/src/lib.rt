// A step number decoded: level, attempt and position in the climb, with no code.
#![tactic(auto)]
