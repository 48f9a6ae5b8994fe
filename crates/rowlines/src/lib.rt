// The line that is named of a row that can't be written: theorems only.
#![tactic(auto)]
