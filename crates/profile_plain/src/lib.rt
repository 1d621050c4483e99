// No code: ticket 8's demand 2 as one statement of all calls. A table of the meter profile does what the plain table does, but for the calls that it answers
// with 17 or 18 (specs/Plain, proofs/Demand2).
#![tactic(auto)]
