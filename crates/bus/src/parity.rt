// The parity of a byte on the cable.
ghost use Rattle.std.specs.Prelude.{◌≡◌, Some};
ghost use Rattle.bus.specs.Parities.{parity_name, ParityNumber, ParityOf};

use std::fmt;
use thiserror::Error;

// Whether a byte came with the parity bit that belongs to it.
#[derive(Clone, Copy, Debug, PartialEq, Eq)]
pub enum Parity {
    Good,
    Bad,
}

// A number that no parity has: there are two.
#[derive(Clone, Copy, Debug, PartialEq, Eq, Error)]
#[error("there is no parity {0}")]
pub struct NoSuchParity(pub u8);

impl Parity {
    pub fn name(self) -> &'static str
        ensures { result.now ≡ parity_name self }
    {
        match self {
            Parity::Good => "good",
            Parity::Bad => "bad",
        }
    }
}

impl From<Parity> for u8 {
    ghost from_gives = { ParityNumber };

    fn from(parity: Parity) -> u8 {
        parity as u8
    }
}

impl TryFrom<u8> for Parity {
    type Error = NoSuchParity;

    ghost try_from_gives = { ParityOf };

    fn try_from(number: u8) -> Result<Parity, NoSuchParity> {
        match number {
            0 => Ok(Parity::Good),
            1 => Ok(Parity::Bad),
            _ => Err(NoSuchParity(number)),
        }
    }
}

impl fmt::Display for Parity {
    ghost output = { λ p. Some (parity_name p) };

    fn fmt<W: fmt::Write>(&self, f: &mut fmt::Formatter<W>) -> fmt::Result {
        f.write_str(self.name())
    }
}
