// The drive: a station that answers commands from a disc image.
#![tactic(auto)]

pub mod command;
pub mod drive;
pub mod image;
pub mod sending;
#[cfg(test)]
mod tests;
