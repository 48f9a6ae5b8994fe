// No function: proofs/ has that the doubles of `doubles` are near the exact subtotals, as specs/ says it.
#![tactic(auto)]
