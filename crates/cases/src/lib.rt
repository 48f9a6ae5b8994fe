// The paper's worked day and its table of cases, which the checker computes: see specs/.
#![tactic(auto)]
