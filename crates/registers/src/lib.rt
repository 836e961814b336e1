// The words of the chip: its states, registers and commands, what it refuses, and what a call answers.
#![tactic(auto)]

pub mod answer;
pub mod call;
pub mod cause;
pub mod command;
pub mod refusal;
pub mod register;
pub mod state;
