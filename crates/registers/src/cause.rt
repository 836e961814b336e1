// The causes of an interrupt.
ghost use Rattle.std.specs.Prelude.{◌≡◌, Some};
ghost use Rattle.registers.specs.Causes.{cause_name, CauseNumber, CauseOf};

use std::fmt;
use thiserror::Error;

// What the chip raises, and Interrupt then shows.
#[derive(Clone, Copy, Debug, PartialEq, Eq)]
pub enum Cause {
    FunctionComplete = 0x01,
    BusService = 0x02,
    Disconnected = 0x04,
    Reselected = 0x10,
    InvalidCommand = 0x40,
}

// A value of Interrupt that is none of the causes. Zero, with which nothing is pending, is such a value.
#[derive(Clone, Copy, Debug, PartialEq, Eq, Error)]
#[error("{0:02x}h is no cause of an interrupt")]
pub struct NoSuchCause(pub u8);

impl Cause {
    pub fn name(self) -> &'static str
        ensures { result.now ≡ cause_name self }
    {
        match self {
            Cause::FunctionComplete => "function complete",
            Cause::BusService => "bus service",
            Cause::Disconnected => "disconnected",
            Cause::Reselected => "reselected",
            Cause::InvalidCommand => "invalid command",
        }
    }
}

impl From<Cause> for u8 {
    ghost from_gives = { CauseNumber };

    fn from(cause: Cause) -> u8 {
        cause as u8
    }
}

impl TryFrom<u8> for Cause {
    type Error = NoSuchCause;

    ghost try_from_gives = { CauseOf };

    fn try_from(value: u8) -> Result<Cause, NoSuchCause> {
        match value {
            0x01 => Ok(Cause::FunctionComplete),
            0x02 => Ok(Cause::BusService),
            0x04 => Ok(Cause::Disconnected),
            0x10 => Ok(Cause::Reselected),
            0x40 => Ok(Cause::InvalidCommand),
            _ => Err(NoSuchCause(value)),
        }
    }
}

impl fmt::Display for Cause {
    ghost output = { λ c. Some (cause_name c) };

    fn fmt<W: fmt::Write>(&self, f: &mut fmt::Formatter<W>) -> fmt::Result {
        f.write_str(self.name())
    }
}
