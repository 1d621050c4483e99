// Nets in which a node changes hands: another hub owns it from then on, and it has all that was given (specs/Owners). There is no code here.
#![tactic(auto)]
