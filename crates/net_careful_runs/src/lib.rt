// What breaks a careful net when one of its conditions goes: short runs (proofs/). There is no code here.
#![tactic(auto)]
