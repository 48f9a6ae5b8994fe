// No function: the theorems of specs/ say what the crates together promise. Read specs/Lib.antt first.
#![tactic(auto)]
