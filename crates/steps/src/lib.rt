// No function: proofs/ has the steps by which the theorems of promises are proved, so that promises itself is what it says.
#![tactic(auto)]
