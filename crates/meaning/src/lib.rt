// The rules of a recording and of its report as definitions (specs/), with no code.
#![tactic(auto)]
