// What holds of the history and the rows after any accepted records, with no code.
#![tactic(auto)]
