// No function: the theorems of specs/ tie the contract of each entry point to the definitions that promises speaks of. Read specs/Lib.antt first.
#![tactic(auto)]
