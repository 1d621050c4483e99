// How a net ends: after how many rounds a hub is at the owner's max (specs/Closing). There is no code here.
#![tactic(auto)]
