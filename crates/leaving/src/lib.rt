// Applying a delta but for the hub's own nodes: such a node answers Reject and stays as it is, whatever the bytes say (specs/Leaving). The code is in
// `apply_parts` and `apply`.
#![tactic(auto)]
