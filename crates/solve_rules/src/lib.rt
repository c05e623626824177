// No code: what read-back and the whole run answer, and demand 3, are definitions and theorems (specs/, proofs/).
#![tactic(auto)]
