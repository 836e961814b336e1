// What a call answers, and what it asks of the station.
ghost use Rattle.std.specs.Prelude.{◌≡◌};
ghost use Rattle.registers.specs.Answers.{direction_number, HeardByNone};

// The lines of an answer, each by its weight.
pub const INT: u8 = 0x01;

pub const DREQ: u8 = 0x02;

pub const ATN: u8 = 0x04;

pub const ACK: u8 = 0x08;

pub const CONNECTED: u8 = 0x10;

// Which way a byte moved on the cable.
#[derive(Clone, Copy, Debug, PartialEq, Eq)]
pub enum Direction {
    In = 1,
    Out = 2,
}

// Seven plain numbers with C's layout, since a host that is not written in Rattle lends the room for them; those that a call
// has no use for are zero.
#[repr(C)]
#[derive(Clone, Copy, Debug, Default, PartialEq, Eq)]
pub struct Answer {
    // the number of the refusal, zero where there is none
    pub refusal: u8,
    // what was read
    pub value: u8,
    // INT, DREQ, ATN, ACK and connected, as they are after the call
    pub lines: u8,
    // the direction in which a byte moved on the cable, zero where none did
    pub cable: u8,
    // the byte that moved
    pub byte: u8,
    // of the data byte that the call dealt with, if any: the phase in which it came into the chip
    pub phase: u8,
    // how many bytes were lost
    pub lost: u8,
}

// What the station is to hear: nothing; that it is told, with this byte; or that this address is chosen, with the
// state of ATN.
#[derive(Clone, Copy, Debug, PartialEq, Eq)]
pub enum Reaction {
    Nothing,
    Tell(u8),
    Choose(u8, bool),
}

// What a call asks of the station, and its answer.
#[derive(Clone, Copy, Debug, PartialEq, Eq)]
pub struct Response {
    pub reaction: Reaction,
    pub answer: Answer,
}

// The direction's number, as an answer tells it.
impl From<Direction> for u8 {
    ghost from_gives = { λ d n. n ≡ direction_number d };

    fn from(direction: Direction) -> u8 {
        direction as u8
    }
}

// An answer of which the station hears nothing.
impl From<Answer> for Response {
    ghost from_gives = { HeardByNone };

    fn from(answer: Answer) -> Response {
        Response {
            reaction: Reaction::Nothing,
            answer,
        }
    }
}
