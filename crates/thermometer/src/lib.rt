#![tactic(auto)]

// A station of one's own, as an example: a thermometer. Whenever it is chosen it shows one reading in Data In and goes; the
// next time it has the next one.
#[cfg(test)]
mod tests;

ghost use Rattle.std.specs.Prelude.{◌≡◌};
ghost use Rattle.thermometer.specs.Thermometers.{resting_at, thermometer_meaning, thermometer_lawful};

use bus::address::StationAddress;
use bus::parity::Parity;
use bus::phase::Phase;
use bus::station::Station;
use bus::wish::Wish;

#[derive(Clone, Copy, Debug, PartialEq, Eq)]
pub enum Stage {
    Resting,
    Showing,
    Leaving,
}

#[derive(Clone, Copy, Debug, PartialEq, Eq)]
pub struct Thermometer {
    address: StationAddress,
    reading: u8,
    stage: Stage,
}

impl Thermometer {
    pub fn new(address: StationAddress, reading: u8) -> Self
        ensures { result ≡ resting_at address reading }
    {
        Thermometer {
            address,
            reading,
            stage: Stage::Resting,
        }
    }
}

impl Station for Thermometer {
    ghost meaning = { thermometer_meaning };

    ghost lawful = { thermometer_lawful };

    fn wish(&self) -> Wish {
        match self.stage {
            Stage::Resting => Wish::Off,
            Stage::Showing => Wish::Req(Phase::DataIn, self.reading, Parity::Good),
            Stage::Leaving => Wish::Go,
        }
    }

    fn address(&self) -> StationAddress {
        self.address
    }

    fn chosen(&mut self, address: StationAddress, _atn: bool) -> bool {
        if !self.says_yes(address) {
            return false;
        }
        self.stage = Stage::Showing;
        true
    }

    fn told(&mut self, _sent: u8) {
        match self.stage {
            Stage::Resting => {}
            Stage::Showing => self.stage = Stage::Leaving,
            Stage::Leaving => {
                self.reading = self.reading.wrapping_add(1);
                self.stage = Stage::Resting;
            }
        }
    }
}
