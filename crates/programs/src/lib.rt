// What the programs share: the words of a line with its numbers, and how a program ends.
#![tactic(auto)]

pub mod ending;
pub mod fields;
