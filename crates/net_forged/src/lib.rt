// A net in which any bytes come to any hub as a delta, honest or forged, any number of times; every hub leaves its own nodes alone (specs/Forged). There is no
// code here.
#![tactic(auto)]
