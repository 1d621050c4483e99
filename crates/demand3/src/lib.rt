// Demand 3: a reading may arrive late, but does not come back from the dead. A publisher, a follower and whatever may happen to them (specs/World), what is
// claimed of them at every moment, and how many exchanges end it (specs/Demand3). There is no code here.
#![tactic(auto)]
