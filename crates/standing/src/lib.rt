// Theorems only: where the rows of a return stand.
#![tactic(auto)]
