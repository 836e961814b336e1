// What travels on the cable, and what every station on it means.
#![tactic(auto)]

pub mod address;
pub mod message;
pub mod parity;
pub mod patient;
pub mod phase;
pub mod station;
pub mod status;
#[cfg(test)]
mod tests;
pub mod wish;
