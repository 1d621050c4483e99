// That grids keep their rules: laws of the definitions of `grid` (proofs/). There is no code here.
#![tactic(auto)]
