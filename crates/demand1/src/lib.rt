// Demand 1 as one statement over all calls of a hub: specs/Calls, specs/Demand1. There is no code here.
#![tactic(auto)]
