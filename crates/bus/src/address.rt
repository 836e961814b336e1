// A station's address, and the ID byte in which each station has a bit.
// Both are numbers of eight bits; being two types, one never passes for the other.
ghost use Rattle.std.specs.Prelude.{◌≡◌, ◌%◌, ◌<◌, bit_or};
ghost use Rattle.std.specs.Option.{option_map};
ghost use Rattle.bus.specs.Ids.{station_bit, scanned, decoded};

use thiserror::Error;

// An address on the cable, 0 to 7.
#[derive(Clone, Copy, Debug, PartialEq, Eq)]
pub struct StationAddress {
    number: u8,
    ghost within: { number < 8 },
}

// A number above 7, where an address has to be one of a station.
#[derive(Clone, Copy, Debug, PartialEq, Eq, Error)]
#[error("there is no address {0}")]
pub struct NoSuchAddress(pub u8);

// What stands on the data lines in a selection or a reselection: bit n is set for station n.
#[derive(Clone, Copy, Debug, PartialEq, Eq)]
pub struct IdByte {
    bits: u8,
}

impl StationAddress {
    // A number above 7 is taken mod 8.
    pub fn new(number: u8) -> Self
        ensures { result.number ≡ number % 8 }
    {
        StationAddress { number: number % 8 }
    }

    pub fn number(self) -> u8
        ensures value { result ≡ self.number }
        ensures bound { result < 8 }
    {
        self.number
    }

    // The ID byte with this station's bit alone.
    pub fn encode(self) -> IdByte
        ensures { result.bits ≡ station_bit self.number }
    {
        IdByte {
            bits: 1 << self.number,
        }
    }
}

// No number is taken mod 8 here.
impl TryFrom<u8> for StationAddress {
    ghost use Rattle.bus.specs.Addresses.{AddressOf};

    type Error = NoSuchAddress;

    ghost try_from_gives = { AddressOf };

    fn try_from(number: u8) -> Result<StationAddress, NoSuchAddress> {
        if number < 8 {
            Ok(StationAddress { number })
        } else {
            Err(NoSuchAddress(number))
        }
    }
}

impl IdByte {
    pub fn new(bits: u8) -> Self
        ensures { result.bits ≡ bits }
    {
        IdByte { bits }
    }

    pub fn bits(self) -> u8
        ensures { result ≡ self.bits }
    {
        self.bits
    }

    // The bits of both: of a station that reselects, and of the one that it reselects.
    pub fn join(self, other: IdByte) -> IdByte
        ensures { result.bits ≡ bit_or self.bits other.bits }
    {
        IdByte {
            bits: self.bits | other.bits,
        }
    }

    // The other station, where exactly the bits of `own` and of one other are set.
    pub fn decode(self, own: StationAddress) -> Option<StationAddress>
        ensures { option_map (λ a. a.number) result ≡ decoded own.number self.bits }
    {
        self.scan(own.encode()).map(StationAddress::new)
    }

    // The same by the bits: without the own one a single bit is left.
    fn scan(self, own: IdByte) -> Option<u8>
        ensures { result ≡ scanned own.bits self.bits }
    {
        let others = self.bits ^ own.bits;
        if self.bits & own.bits == 0 || !others.is_power_of_two() {
            return None;
        }
        Some(others.trailing_zeros() as u8)
    }
}
