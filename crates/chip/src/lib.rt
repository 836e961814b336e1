// The NCR 5385E, disconnected or as initiator. It knows no station: it is handed a wish, and says what the station is to
// hear.
#![tactic(auto)]

mod answers;
mod calls;
pub mod chip;
mod commands;
mod received;
mod turn;
