// What the chip needs of a station, and what every station means.
ghost use Rattle.std.specs.Prelude.{◌≡◌, length};
ghost use Rattle.bus.specs.Meaning.{Meaning, Lawful, says_yes};

use super::address::StationAddress;
use super::wish::Wish;

// A station on the cable. Its meaning is a wish, an address, the Data In bytes that wait, and what it is after
// each call; `lawful` is the proof that these keep the clauses which all stations share.
pub trait Station {
    ghost meaning: { Meaning Self };

    ghost lawful: { Lawful meaning };

    // What it wants of the cable now.
    fn wish(&self) -> Wish
        ensures { result ≡ meaning.wants self.now };

    fn address(&self) -> StationAddress
        ensures { result.number ≡ meaning.address self.now };

    // Whether it says yes to an address: it is off, and the address is its own.
    fn says_yes(&self, address: StationAddress) -> bool
        ensures { result ≡ says_yes meaning self.now address.number }
    {
        self.wish().is_off() && self.address() == address
    }

    // Chosen: an initiator selects this address, with ATN on or off. The answer is whether the station responds.
    fn chosen(&mut self, address: StationAddress, atn: bool) -> bool
        ensures value { result ≡ says_yes meaning self.old address.number }
        ensures after { self.new ≡ meaning.after_chosen self.old address.number atn };

    // Told: the initiator has dealt with the wish, which ends it; at a Req it has acknowledged the byte.
    // `sent` is the byte of an output, and zero for an input.
    fn told(&mut self, sent: u8)
        ensures { self.new ≡ meaning.after_told self.old sent };
}

// A station that can tell how many Data In bytes wait.
pub trait Tally: Station {
    fn waiting(&self) -> usize
        ensures { result ≡ length (Self.Station.meaning.waiting self.now) };
}
