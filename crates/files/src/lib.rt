// No function: the cases of files of returns, computed by the checker from the definitions. Read specs/Lib.antt first.
#![tactic(auto)]
