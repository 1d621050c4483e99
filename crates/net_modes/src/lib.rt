// Nets in which a hub's mode changes, from fenced to guarded or back (specs/Modes). There is no code here.
#![tactic(auto)]
