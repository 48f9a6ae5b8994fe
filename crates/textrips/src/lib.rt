// Rows as text and back: theorems only.
#![tactic(auto)]
