// What the definitions and the code of ticket 12 share: where everything stands in the bytes of a lent grid. What it means stands in specs/.
#![tactic(auto)]

pub mod layout;
