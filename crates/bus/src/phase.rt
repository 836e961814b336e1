// The phases of the bus.
ghost use Rattle.std.specs.Prelude.{◌≡◌, Some};
ghost use Rattle.bus.specs.Phases.{phase_name, is_input, PhaseNumber, PhaseOf};

use std::fmt;
use thiserror::Error;

// What travels, and which way: the lines I/O, C/D and MSG as one of eight cases.
#[derive(Clone, Copy, Debug, PartialEq, Eq)]
pub enum Phase {
    DataOut,
    UnspecifiedOut,
    Command,
    MessageOut,
    DataIn,
    UnspecifiedIn,
    Status,
    MessageIn,
}

// A number that no phase has: there are eight.
#[derive(Clone, Copy, Debug, PartialEq, Eq, Error)]
#[error("there is no phase {0}")]
pub struct NoSuchPhase(pub u8);

impl Phase {
    // What the phase is called.
    pub fn name(self) -> &'static str
        ensures { result.now ≡ phase_name self }
    {
        match self {
            Phase::DataOut => "Data Out",
            Phase::UnspecifiedOut => "Unspecified Out",
            Phase::Command => "Command",
            Phase::MessageOut => "Message Out",
            Phase::DataIn => "Data In",
            Phase::UnspecifiedIn => "Unspecified In",
            Phase::Status => "Status",
            Phase::MessageIn => "Message In",
        }
    }

    // Whether bytes travel to the initiator: the line I/O is on.
    pub fn is_input(self) -> bool
        ensures { result ≡ is_input self }
    {
        matches!(
            self,
            Phase::DataIn | Phase::UnspecifiedIn | Phase::Status | Phase::MessageIn
        )
    }
}

// The number on the lines: 4 × I/O + 2 × C/D + MSG.
impl From<Phase> for u8 {
    ghost from_gives = { PhaseNumber };

    fn from(phase: Phase) -> u8 {
        phase as u8
    }
}

impl TryFrom<u8> for Phase {
    type Error = NoSuchPhase;

    ghost try_from_gives = { PhaseOf };

    fn try_from(number: u8) -> Result<Phase, NoSuchPhase> {
        match number {
            0 => Ok(Phase::DataOut),
            1 => Ok(Phase::UnspecifiedOut),
            2 => Ok(Phase::Command),
            3 => Ok(Phase::MessageOut),
            4 => Ok(Phase::DataIn),
            5 => Ok(Phase::UnspecifiedIn),
            6 => Ok(Phase::Status),
            7 => Ok(Phase::MessageIn),
            _ => Err(NoSuchPhase(number)),
        }
    }
}

impl fmt::Display for Phase {
    ghost output = { λ p. Some (phase_name p) };

    fn fmt<W: fmt::Write>(&self, f: &mut fmt::Formatter<W>) -> fmt::Result {
        f.write_str(self.name())
    }
}
