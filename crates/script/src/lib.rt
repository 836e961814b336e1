// The script: a station that plays a table of rows along its chain.
#![tactic(auto)]

pub mod record;
pub mod refusal;
pub mod row;
pub mod script;
#[cfg(test)]
mod tests;
