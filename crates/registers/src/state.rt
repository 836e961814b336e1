// The states of the chip.
ghost use Rattle.std.specs.Prelude.{◌≡◌};
ghost use Rattle.registers.specs.States.{is_transferring, is_connected, is_busy, is_free, is_disabled, StateNumber, StateOf};

use thiserror::Error;

#[derive(Clone, Copy, Debug, PartialEq, Eq)]
pub enum State {
    // Off the cable, with no command.
    Idle,
    // A Select waits for a free cable.
    Arbitrating,
    // A Select waits for the station's yes.
    Selecting,
    // Connected, until the station asks for a phase.
    Waiting,
    // Connected, and the station has asked for a phase.
    Asked,
    // A Transfer is under way.
    Transferring,
    Disabled,
}

// A number that no state has: there are seven.
#[derive(Clone, Copy, Debug, PartialEq, Eq, Error)]
#[error("there is no state {0}")]
pub struct NoSuchState(pub u8);

impl State {
    pub fn is_transferring(self) -> bool
        ensures { result ≡ is_transferring self }
    {
        matches!(self, State::Transferring)
    }

    // Connected to a station.
    pub fn is_connected(self) -> bool
        ensures { result ≡ is_connected self }
    {
        matches!(self, State::Waiting | State::Asked | State::Transferring)
    }

    // A command is under way.
    pub fn is_busy(self) -> bool
        ensures { result ≡ is_busy self }
    {
        matches!(
            self,
            State::Arbitrating | State::Selecting | State::Transferring
        )
    }

    // Neither connected nor disabled.
    pub fn is_free(self) -> bool
        ensures { result ≡ is_free self }
    {
        matches!(self, State::Idle | State::Arbitrating | State::Selecting)
    }

    pub fn is_disabled(self) -> bool
        ensures { result ≡ is_disabled self }
    {
        matches!(self, State::Disabled)
    }
}

impl From<State> for u8 {
    ghost from_gives = { StateNumber };

    fn from(state: State) -> u8 {
        state as u8
    }
}

impl TryFrom<u8> for State {
    type Error = NoSuchState;

    ghost try_from_gives = { StateOf };

    fn try_from(number: u8) -> Result<State, NoSuchState> {
        match number {
            0 => Ok(State::Idle),
            1 => Ok(State::Arbitrating),
            2 => Ok(State::Selecting),
            3 => Ok(State::Waiting),
            4 => Ok(State::Asked),
            5 => Ok(State::Transferring),
            6 => Ok(State::Disabled),
            _ => Err(NoSuchState(number)),
        }
    }
}
