// The promises on bytes, on calls that make a string and run a list of calls on it.
#![tactic(auto)]

pub mod records;
pub mod trials;
