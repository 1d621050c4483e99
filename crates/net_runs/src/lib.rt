// Runs of nets, computed: where the claims fail, and why the plan of a net must be as it is (proofs/Witnesses). There is no code here.
#![tactic(auto)]
