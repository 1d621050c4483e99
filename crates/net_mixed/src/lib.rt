// Old and new hubs side by side: when plain hubs keep a net sound (specs/Mixed). There is no code here.
#![tactic(auto)]
