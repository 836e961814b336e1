// What the host keeps of a string, and the parts that its numbers name.
ghost use Rattle.embed.specs.Kinds.{KindNumber, KindOf};

use breaker::Progress;
use bus::address::StationAddress;
use chip::chip::Ncr5385e;
use saved::numbers::{SavedBreaker, SavedChip, SavedDrive, SavedScript};
use thiserror::Error;

// Numbers alone, with C's layout, since the host need not be written in Rattle.
#[repr(C)]
#[derive(Clone, Copy, Debug, PartialEq, Eq)]
pub struct SavedString {
    pub chip: SavedChip,
    pub breaker: SavedBreaker,
    // Of a drive.
    pub drive: SavedDrive,
    // Of a script.
    pub script: SavedScript,
    // What stands below the breaker: 0 a drive, 1 a script.
    pub kind: u8,
    // The station's address.
    pub address: u8,
}

// What stands below the breaker.
#[derive(Clone, Copy, Debug, PartialEq, Eq)]
pub enum Kind {
    Drive,
    Script,
}

// A number that no kind has: there are two.
#[derive(Clone, Copy, Debug, PartialEq, Eq, Error)]
#[error("there is no kind {0} of station")]
pub struct NoSuchKind(pub u8);

impl From<Kind> for u8 {
    ghost from_gives = { KindNumber };

    fn from(kind: Kind) -> u8 {
        kind as u8
    }
}

impl TryFrom<u8> for Kind {
    type Error = NoSuchKind;

    ghost try_from_gives = { KindOf };

    fn try_from(number: u8) -> Result<Kind, NoSuchKind> {
        match number {
            0 => Ok(Kind::Drive),
            1 => Ok(Kind::Script),
            _ => Err(NoSuchKind(number)),
        }
    }
}

// All of a string but what the host lends: `mark` is where its station stands.
#[derive(Clone, Copy)]
pub struct Parts<M> {
    pub chip: Ncr5385e,
    pub progress: Progress,
    pub address: StationAddress,
    pub mark: M,
}
