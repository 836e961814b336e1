// The statuses that a drive answers in the phase Status.
ghost use Rattle.std.specs.Prelude.{◌≡◌, Some};
ghost use Rattle.bus.specs.Statuses.{status_name, StatusByte, StatusOf};

use std::fmt;
use thiserror::Error;

// How a command went.
#[derive(Clone, Copy, Debug, PartialEq, Eq)]
pub enum Status {
    Good = 0x00,
    CheckCondition = 0x02,
}

// A byte that is neither status.
#[derive(Clone, Copy, Debug, PartialEq, Eq, Error)]
#[error("{0:02x}h is no status that a station sends")]
pub struct NoSuchStatus(pub u8);

impl Status {
    pub fn name(self) -> &'static str
        ensures { result.now ≡ status_name self }
    {
        match self {
            Status::Good => "good",
            Status::CheckCondition => "check condition",
        }
    }
}

impl From<Status> for u8 {
    ghost from_gives = { StatusByte };

    fn from(status: Status) -> u8 {
        status as u8
    }
}

impl TryFrom<u8> for Status {
    type Error = NoSuchStatus;

    ghost try_from_gives = { StatusOf };

    fn try_from(byte: u8) -> Result<Status, NoSuchStatus> {
        match byte {
            0x00 => Ok(Status::Good),
            0x02 => Ok(Status::CheckCondition),
            _ => Err(NoSuchStatus(byte)),
        }
    }
}

impl fmt::Display for Status {
    ghost output = { λ s. Some (status_name s) };

    fn fmt<W: fmt::Write>(&self, f: &mut fmt::Formatter<W>) -> fmt::Result {
        f.write_str(self.name())
    }
}
