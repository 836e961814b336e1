// What a station wants of the cable.
ghost use Rattle.std.specs.Prelude.{◌≡◌};
ghost use Rattle.std.specs.Option.{option_to_list};
ghost use Rattle.bus.specs.Messages.{message_byte};
ghost use Rattle.bus.specs.Wishes.{wish_kind, asking, offers, shows_data, takes_byte, is_off};

use super::address::IdByte;
use super::message::Message;
use super::parity::Parity;
use super::phase::Phase;
use std::fmt;

// A station's wish: what it does on the cable until it is chosen or told.
#[derive(Clone, Copy, Debug, PartialEq, Eq)]
pub enum Wish {
    // It drives no line.
    Off,
    // It tries to reselect: the ID byte on the data lines, with its parity.
    Back(IdByte, Parity),
    // It keeps a phase, with REQ off.
    Hold(Phase),
    // REQ is on. In an input phase the byte is on the data lines, with its parity; in an output phase
    // there is nothing to show, and nobody looks at the two.
    Req(Phase, u8, Parity),
    // It drops BSY.
    Go,
}

impl Wish {
    // The number of the case, as a row of a script has it: 0 Off, 1 Back, 2 Hold, 3 Req, 4 Go. A method, since a case that
    // carries values cannot be cast to its number, nor made of it.
    pub fn kind(self) -> u8
        ensures { result ≡ wish_kind self }
    {
        match self {
            Wish::Off => 0,
            Wish::Back(_, _) => 1,
            Wish::Hold(_) => 2,
            Wish::Req(_, _, _) => 3,
            Wish::Go => 4,
        }
    }

    // A Req in this phase: the byte and its parity for an input, zero and good for an output.
    pub fn req(phase: Phase, byte: u8, parity: Parity) -> Self
        ensures { result ≡ asking phase byte parity }
    {
        if phase.is_input() {
            Wish::Req(phase, byte, parity)
        } else {
            Wish::Req(phase, 0, Parity::Good)
        }
    }

    // A message to the initiator.
    pub fn message(message: Message) -> Self
        ensures { result ≡ Wish.Req Phase.MessageIn (message_byte message) Parity.Good }
    {
        Wish::Req(Phase::MessageIn, u8::from(message), Parity::Good)
    }

    // The Data In byte that the wish shows.
    pub fn data_in(self) -> Option<u8>
        ensures { option_to_list result ≡ offers self }
    {
        match self {
            Wish::Req(Phase::DataIn, byte, _) => Some(byte),
            _ => None,
        }
    }

    // Whether the wish shows a Data In byte.
    pub fn shows_data(self) -> bool
        ensures { result ≡ shows_data self }
    {
        matches!(self, Wish::Req(Phase::DataIn, _, _))
    }

    // Whether the station asks for a byte: a Req in an output phase.
    pub fn takes_byte(self) -> bool
        ensures { result ≡ takes_byte self }
    {
        matches!(self, Wish::Req(phase, _, _) if !phase.is_input())
    }

    pub fn is_off(self) -> bool
        ensures { result ≡ is_off self }
    {
        matches!(self, Wish::Off)
    }
}

// In words: the phase by its name, the byte of an input in hex, and its parity.
impl fmt::Display for Wish {
    fn fmt<W: fmt::Write>(&self, f: &mut fmt::Formatter<W>) -> fmt::Result {
        match *self {
            Wish::Off => write!(f, "Off"),
            Wish::Back(id, parity) => write!(f, "Back {:02x}h, {parity} parity", id.bits()),
            Wish::Hold(phase) => write!(f, "Hold {phase}"),
            Wish::Req(phase, byte, parity) => {
                if phase.is_input() {
                    write!(f, "Req {phase} {byte:02x}h, {parity} parity")
                } else {
                    write!(f, "Req {phase}")
                }
            }
            Wish::Go => write!(f, "Go"),
        }
    }
}
