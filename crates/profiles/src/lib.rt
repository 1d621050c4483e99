// The profiles of tables: a table of a profile applies deltas in lawful ways, so that demand 3, nets and cut deltas are as before; every call keeps its
// rules; a guard in front of document 01's call is the order that its request names (specs/Order); and what it lets through is the plain table's. There is no
// code here.
#![tactic(auto)]
