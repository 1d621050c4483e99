// A listing read back into the delta that it lists: the definition (specs/Unlist.antt), and that it undoes the listing (proofs/Unlisted.antt), so
// that no two accepted deltas have one listing. There is no code here yet.
#![tactic(auto)]
