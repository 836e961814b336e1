#![tactic(auto)]

// Sessions with the chip: what a host does, and what it sees. Tests only.
#[cfg(test)]
mod tests;
