// Two firms on one table: the two runs with the readings as they are linked (specs/Linked). There is no code here.
#![tactic(auto)]
