// The string for a host that is not written in Rattle. The host owns the state, as plain numbers, and lends the disc image
// or the rows of a script at each call. Nothing that it hands over is trusted.
#![tactic(auto)]

mod exports;
mod kept;
pub mod refusal;
mod serve;
pub mod state;
