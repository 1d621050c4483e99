// Nets whose hubs keep grids: definitions and theorems (specs/, proofs/). There is no code here.
#![tactic(auto)]
