// Words of a script: a line taken apart, the call that it asks for, numbers and bytes read out of its words, and answers written into a lent buffer.
// Nothing here has a `requires` but for the helpers that are not public: what is no number or no byte string is answered by `None`, and what has no room
// is not written.
#![tactic(auto)]

pub mod print;
pub mod read;
pub mod verbs;
