// What can be said of a chip at any time, and the answers that calls are made of.
ghost use Rattle.std.specs.Prelude.{◌≡◌, ◌≤◌, length, if◌then◌else◌};
ghost use Rattle.bus.specs.Phases.{phase_number, in_data_in};
ghost use Rattle.registers.specs.Answers.{direction_number};
ghost use Rattle.chip.specs.Model.{model};
ghost use Rattle.chip.specs.Losses.{lost_count, lost_phase};
ghost use Rattle.chip.specs.Outcomes.{outcome, is_single, is_pad, left, in_dma, wants_byte, dreq, lines_of, quiet, valued, moved, loss, silent, tells, refused};

use super::chip::{Loss, Ncr5385e};
use bus::phase::Phase;
use registers::answer::{ACK, ATN, Answer, CONNECTED, DREQ, Direction, INT, Reaction, Response};
use registers::command::Code;
use registers::refusal::Refusal;

// A bit that is on or off, with its weight.
pub(crate) fn flag(on: bool, weight: u8) -> u8
    ensures value { result ≡ (if on then weight else 0) }
    ensures bound { result ≤ weight }
{
    if on { weight } else { 0 }
}

pub(crate) fn is_single(command: u8) -> bool
    ensures { result ≡ is_single command }
{
    command & 0x40 != 0
}

pub(crate) fn is_pad(command: u8) -> bool
    ensures { result ≡ is_pad command }
{
    command & 31 == Code::TransferPad as u8
}

impl Ncr5385e {
    // The bytes that the command under way has yet to move.
    pub(crate) fn left(&self) -> u32
        ensures { result ≡ left (model self.now) }
    {
        if is_single(self.registers.command) {
            u32::from(self.single)
        } else {
            self.registers.counter
        }
    }

    pub(crate) fn in_dma(&self) -> bool
        ensures { result ≡ in_dma (model self.now) }
    {
        self.state.is_transferring() && self.registers.command >= 0x80
    }

    // An output transfer waits for a byte to be written.
    pub(crate) fn wants_byte(&self) -> bool
        ensures { result ≡ wants_byte (model self.now) }
    {
        self.state.is_transferring()
            && !self.latched.is_input()
            && self.left() > 0
            && self.written.is_none()
    }

    fn dreq(&self) -> bool
        ensures { result ≡ dreq (model self.now) }
    {
        self.in_dma() && (!self.received.is_empty() || self.wants_byte())
    }

    // The lines as an answer tells them, each with its weight; a disabled chip drives none.
    #[tactic(auto, unfolding(crate::specs::Outcomes::lines_of))]
    pub fn lines(&self) -> u8
        ensures { result ≡ lines_of (model self.now) }
    {
        if self.state.is_disabled() {
            return 0;
        }
        flag(self.registers.interrupt != 0, INT)
            + flag(self.dreq(), DREQ)
            + flag(self.flags.atn, ATN)
            + flag(self.flags.ack, ACK)
            + flag(self.state.is_connected(), CONNECTED)
    }

    // How many received bytes of Data In the host has not read yet.
    pub fn held_data(&self) -> u8
        ensures { result ≡ length (in_data_in self.now.latched (model self.now).received) }
    {
        if self.latched == Phase::DataIn {
            self.received.len()
        } else {
            0
        }
    }

    // An answer that tells the lines and nothing else.
    pub fn quiet(&self) -> Answer
        ensures { result ≡ quiet (model self.now) }
    {
        Answer {
            lines: self.lines(),
            ..Answer::default()
        }
    }

    // A byte of data read or written in that phase.
    pub(crate) fn valued(&self, value: u8, phase: Phase) -> Answer
        ensures { result ≡ valued value (phase_number phase) (model self.now) }
    {
        Answer {
            value,
            phase: phase.into(),
            ..self.quiet()
        }
    }

    // A byte that moved on the cable.
    pub(crate) fn moved(&self, way: Direction, byte: u8, phase: Phase, lost: u8) -> Answer
        ensures { result ≡ moved (direction_number way) byte (phase_number phase) lost (model self.now) }
    {
        Answer {
            cable: way.into(),
            byte,
            phase: phase.into(),
            lost,
            ..self.quiet()
        }
    }

    // Bytes lost, if any were.
    #[inline(always)]
    pub(crate) fn loss(&self, lost: Option<Loss>) -> Answer
        ensures { result ≡ loss (lost_count lost) (lost_phase lost) (model self.now) }
    {
        match lost {
            None => self.quiet(),
            Some(Loss { count, phase }) => Answer {
                phase: phase.into(),
                lost: count,
                ..self.quiet()
            },
        }
    }

    pub(crate) fn done(&self) -> Response
        ensures { outcome (model self.now) result ≡ silent (model self.now) }
    {
        self.quiet().into()
    }

    pub(crate) fn tell(&self) -> Response
        ensures { outcome (model self.now) result ≡ tells 0 (model self.now) }
    {
        Response {
            reaction: Reaction::Tell(0),
            answer: self.quiet(),
        }
    }

    pub(crate) fn refuse(&self, refusal: Refusal) -> Response
        ensures { outcome (model self.now) result ≡ refused refusal (model self.now) }
    {
        let answer = Answer {
            refusal: refusal.into(),
            ..self.quiet()
        };
        answer.into()
    }
}
