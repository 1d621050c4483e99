// Demand 3 of lent bytes: the same world with the bytes of two tables, changed by the calls that a hub makes (specs/LentWorld), the claims of it
// (specs/LentDemand3), and `exchange::exchange` called over and over in it (specs/Runs). There is no code here.
#![tactic(auto)]
