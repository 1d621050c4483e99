// Two datagrams for one: a delta that a gateway cuts at the start of a Node operation, and what applying its two parts does
// (specs/Split). There is no code here.
#![tactic(auto)]
