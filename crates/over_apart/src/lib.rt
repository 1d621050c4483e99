// Overrides are never gossiped: a theorem over every call that writes a digest or a delta or takes one (specs/Apart). There is no code here.
#![tactic(auto)]
