// Nets with a hub that nobody hears, which may be plain (specs/Unheard). There is no code here.
#![tactic(auto)]
