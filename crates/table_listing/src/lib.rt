// The listing of a stored table: the definition (specs/TableListing.antt), how long it is at most (proofs/Long.antt), and that no two good tables have one
// listing (proofs/Told.antt). There is no code here.
#![tactic(auto)]
