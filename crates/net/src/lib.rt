// A net of hubs: what holds of any number of them, whoever passes a reading on (specs/Net, specs/LentNet). There is no code here.
#![tactic(auto)]
