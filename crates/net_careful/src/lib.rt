// Careful nets: definitions and theorems (specs/, proofs/). There is no code here.
#![tactic(auto)]
