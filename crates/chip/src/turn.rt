// One turn of the cable: what the chip does about the station's wish.
ghost use Rattle.std.specs.Prelude.{◌≡◌, ◌<◌, true, false, IfSome};
ghost use Rattle.bus.specs.Ids.{decoded};
ghost use Rattle.bus.specs.Phases.{is_input};
ghost use Rattle.registers.specs.States.{is_transferring};
ghost use Rattle.chip.specs.Model.{model};
ghost use Rattle.chip.specs.Outcomes.{outcome, asking, completed, heard_yes, let_go};
ghost use Rattle.chip.specs.Places.{places};
ghost use Rattle.chip.specs.Turns.{ack_turn, counted_down, kept, took, discards_byte, keeps_byte, takes, used_up, ended_message, tells_byte, sends, turned};

use super::answers::{is_pad, is_single};
use super::chip::{Ncr5385e, Written};
use bus::address::{IdByte, StationAddress};
use bus::parity::Parity;
use bus::phase::Phase;
use bus::wish::Wish;
use registers::answer::{Direction, Reaction, Response};
use registers::cause::Cause;
use registers::command::Code;
use registers::refusal::Refusal;
use registers::state::State;

// The bits of Control.
const RESELECT_ENABLE: u8 = 0x02;

const PARITY_ENABLE: u8 = 0x04;

impl Ncr5385e {
    pub fn turn(&mut self, wish: Wish) -> Response
        ensures { outcome (model self.new) result ≡ turned (model self.old) wish }
    {
        if self.state.is_disabled() {
            return self.refuse(Refusal::ChipDisabled);
        }
        if self.registers.interrupt != 0 {
            return self.done();
        }
        if self.flags.ack {
            return self.turn_acked();
        }
        match (self.state, wish) {
            (State::Idle | State::Arbitrating, Wish::Back(id, Parity::Good))
                if self.registers.control & RESELECT_ENABLE != 0 => {
                match self.reselector(id) {
                    Some(station) => {
                        self.registers.source = 0x80 + station;
                        self.state = State::Waiting;
                        self.raise(Cause::Reselected);
                        self.tell()
                    }
                    None => self.done(),
                }
            }
            (State::Arbitrating, Wish::Off) => {
                self.flags.atn = self.registers.command & 31 == Code::SelectWithAtn as u8
                    || self.flags.atn;
                self.state = State::Selecting;
                self.done()
            }
            (State::Idle | State::Arbitrating, Wish::Hold(_) | Wish::Go) => self.tell(),
            (State::Selecting, _) => Response {
                reaction: Reaction::Choose(self.registers.destination, self.flags.atn),
                answer: self.quiet(),
            },
            (State::Waiting, Wish::Req(phase, _, _)) => {
                self.ask(phase);
                self.done()
            }
            (State::Asked, Wish::Req(phase, _, _)) if phase != self.latched => {
                self.ask(phase);
                self.done()
            }
            (State::Waiting | State::Asked, Wish::Hold(phase)) if phase != self.latched => {
                self.ask(phase);
                self.tell()
            }
            (State::Waiting | State::Asked, Wish::Hold(_)) => self.tell(),
            (State::Waiting | State::Asked, Wish::Go) => self.let_go(),
            (State::Transferring, Wish::Req(phase, byte, parity))
                if phase == self.latched && self.left() > 0 => {
                if self.latched.is_input() {
                    self.take(byte, parity)
                } else {
                    self.send()
                }
            }
            (State::Transferring, Wish::Req(phase, _, _)) if self.received.is_empty() => {
                self.ask(phase);
                self.done()
            }
            (State::Transferring, Wish::Hold(phase))
                if self.received.is_empty() && phase != self.latched => {
                self.ask(phase);
                self.tell()
            }
            (State::Transferring, Wish::Hold(_)) if self.received.is_empty() => self.tell(),
            (State::Transferring, Wish::Go) if self.received.is_empty() => self.let_go(),
            (State::Idle, Wish::Off | Wish::Back(_, _) | Wish::Req(_, _, _))
            | (State::Arbitrating, Wish::Back(_, _) | Wish::Req(_, _, _))
            | (State::Waiting, Wish::Off | Wish::Back(_, _))
            | (State::Asked, Wish::Off | Wish::Back(_, _) | Wish::Req(_, _, _)) => self.done(),
            (
                State::Transferring,
                Wish::Off | Wish::Back(_, _) | Wish::Hold(_) | Wish::Req(_, _, _) | Wish::Go,
            ) => self.done(),
            (State::Disabled, _) => self.refuse(Refusal::ChipDisabled),
        }
    }

    // The station said yes to its choosing.
    pub fn hear_yes(&mut self)
        ensures { model self.new ≡ heard_yes (model self.old) }
    {
        if self.state == State::Selecting {
            self.complete();
        }
    }

    // With ACK on only a transfer goes on, once it holds no received byte.
    fn turn_acked(&mut self) -> Response
        ensures { outcome (model self.new) result ≡ ack_turn (model self.old) }
    {
        if self.state.is_transferring() && self.received.is_empty() {
            self.complete();
            return self.done();
        }
        self.done()
    }

    // The station that an ID byte names beside this chip.
    fn reselector(&self, id: IdByte) -> Option<u8>
        ensures value { result ≡ decoded self.now.id.number id.bits }
        ensures bound { IfSome result (λ n. n < 8) }
    {
        id.decode(self.id).map(StationAddress::number)
    }

    // A phase is latched.
    fn ask(&mut self, phase: Phase)
        requires { (self.old.received.count ≡ 0) × (self.old.flags.ack ≡ false) }
        ensures { model self.new ≡ asking phase (model self.old) }
    {
        self.state = State::Asked;
        self.latched = phase;
        self.raise(Cause::BusService);
    }

    // A command is done, and the chip connected.
    fn complete(&mut self)
        requires { self.old.received.count ≡ 0 }
        ensures { model self.new ≡ completed (model self.old) }
    {
        self.state = State::Waiting;
        self.raise(Cause::FunctionComplete);
    }

    // The station dropped BSY.
    fn let_go(&mut self) -> Response
        requires { self.old.received.count ≡ 0 }
        ensures { outcome (model self.new) result ≡ let_go (model self.old) }
    {
        self.go_idle();
        self.raise(Cause::Disconnected);
        self.tell()
    }

    // One byte acknowledged.
    fn count_down(&mut self)
        ensures { model self.new ≡ counted_down (model self.old) }
    {
        if is_single(self.registers.command) {
            self.single = 0;
        } else if self.registers.counter > 0 {
            self.registers.counter -= 1;
        }
    }

    // Keeps an input byte; bad parity counts under Parity Enable. That an input is transferred is no invariant, as at `go_idle`;
    // and byte and parity go along as the wish has them: no step wants the two as one.
    fn keep(&mut self, byte: u8, parity: Parity)
        requires { (self.old.received.count < places) × ((is_transferring self.old.state ≡ true) × (is_input self.old.latched ≡ true)) }
        ensures { model self.new ≡ kept (model self.old) byte parity }
    {
        self.received.put(byte);
        match parity {
            Parity::Bad if self.registers.control & PARITY_ENABLE != 0 => {
                self.flags.parity_error = true;
                self.flags.atn = true;
            }
            _ => {}
        }
    }

    // After an input byte: the station is told, or ACK stays on.
    fn took(&mut self, byte: u8, lost: u8) -> Response
        requires { is_transferring self.old.state ≡ true }
        ensures { outcome (model self.new) result ≡ took (model self.old) byte lost }
    {
        if self.left() == 0 && self.latched == Phase::MessageIn {
            self.flags.ack = true;
            return Response {
                reaction: Reaction::Nothing,
                answer: self.moved(Direction::In, byte, self.latched, lost),
            };
        }
        Response {
            reaction: Reaction::Tell(0),
            answer: self.moved(Direction::In, byte, self.latched, lost),
        }
    }

    // Takes an input byte from the cable: Pad loses it, Info keeps it if there is a place.
    #[tactic(auto, unfolding(crate::specs::Turns::takes))]
    fn take(&mut self, byte: u8, parity: Parity) -> Response
        requires { (is_transferring self.old.state ≡ true) × (is_input self.old.latched ≡ true) }
        ensures { outcome (model self.new) result ≡ takes (model self.old) byte parity }
    {
        if is_pad(self.registers.command) {
            return self.discard_byte(byte);
        }
        if self.received.has_place() {
            return self.keep_byte(byte, parity);
        }
        self.done()
    }

    fn discard_byte(&mut self, byte: u8) -> Response
        requires { is_transferring self.old.state ≡ true }
        ensures { outcome (model self.new) result ≡ discards_byte (model self.old) byte }
    {
        self.count_down();
        self.took(byte, 1)
    }

    fn keep_byte(&mut self, byte: u8, parity: Parity) -> Response
        requires { (self.old.received.count < places) × ((is_transferring self.old.state ≡ true) × (is_input self.old.latched ≡ true)) }
        ensures { outcome (model self.new) result ≡ keeps_byte (model self.old) byte parity }
    {
        self.keep(byte, parity);
        self.count_down();
        self.took(byte, 0)
    }

    // After the last byte of Message Out, ATN goes off.
    fn end_message(&mut self)
        ensures { model self.new ≡ ended_message (model self.old) }
    {
        if self.left() == 0 && self.latched == Phase::MessageOut {
            self.flags.atn = false;
        }
    }

    // Info uses the written byte up, Pad keeps it.
    fn use_up(&mut self)
        ensures { model self.new ≡ used_up (model self.old) }
    {
        if !is_pad(self.registers.command) {
            self.written = None;
        }
    }

    // Sends the written byte, if there is one.
    #[tactic(auto, unfolding(crate::specs::Turns::sends))]
    fn send(&mut self) -> Response
        ensures { outcome (model self.new) result ≡ sends (model self.old) }
    {
        match self.written {
            None => self.done(),
            Some(written) => {
                self.use_up();
                self.count_down();
                self.tell_byte(written)
            }
        }
    }

    // Tells the station a byte. ATN is settled first.
    fn tell_byte(&mut self, written: Written) -> Response
        ensures { outcome (model self.new) result ≡ tells_byte (model self.old) written }
    {
        self.end_message();
        Response {
            reaction: Reaction::Tell(written.byte),
            answer: self.moved(Direction::Out, written.byte, written.phase, 0),
        }
    }
}
