// The owner's star: hubs that hear an owner's nodes from the owner alone, and how many exchanges bring a whole table over (specs/Star). There is no code here.
#![tactic(auto)]
