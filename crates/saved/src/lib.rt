// Strings as plain numbers, which a host can keep, copy and load again.
#![tactic(auto)]

pub mod chips;
pub mod numbers;
pub mod refusal;
pub mod stations;
