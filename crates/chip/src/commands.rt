// The commands of the chip, and what it does to be new, idle or disabled.
ghost use Rattle.std.specs.Prelude.{◌≡◌, true, false, is_some, if◌then◌else◌};
ghost use Rattle.registers.specs.Causes.{cause_number};
ghost use Rattle.registers.specs.States.{is_transferring};
ghost use Rattle.chip.specs.Losses.{lost_count, lost_phase};
ghost use Rattle.chip.specs.Model.{model};
ghost use Rattle.chip.specs.Orders.{resets, accepted, started, offered, disconnects, pauses, shut_down, disables, commanded};
ghost use Rattle.chip.specs.Outcomes.{outcome, gives, dropping_ack, raised, gone_idle, loss, emptied, made_new, written_phase, held_count, held_phase};

use super::answers::is_single;
use super::chip::{Flags, Loss, Ncr5385e, Parting, Received, Registers};
use bus::address::StationAddress;
use bus::phase::Phase;
use registers::answer::{Reaction, Response};
use registers::cause::Cause;
use registers::command::Command;
use registers::refusal::Refusal;
use registers::state::State;

impl Ncr5385e {
    // Off the cable, with all registers at their first values.
    pub fn new(id: StationAddress) -> Self
        ensures { model result ≡ made_new id.number }
    {
        Ncr5385e {
            id,
            state: State::Idle,
            latched: Phase::DataOut,
            single: 0,
            registers: Registers {
                source: 7,
                ..Registers::default()
            },
            flags: Flags::default(),
            received: Received::new(),
            written: None,
        }
    }

    // What the station hears where ACK goes off.
    pub(crate) fn dropping_ack(&self) -> Reaction
        ensures { result ≡ dropping_ack self.now.flags.ack }
    {
        if self.flags.ack {
            Reaction::Tell(0)
        } else {
            Reaction::Nothing
        }
    }

    // The written byte, where there is one. Inlined, like all that is asked at a loss: most calls lose nothing, and a reset is
    // then a few writes.
    #[inline(always)]
    fn written_byte(&self) -> Option<Loss>
        ensures count { lost_count result ≡ (if is_some self.now.written then 1 else 0) }
        ensures phase { lost_phase result ≡ written_phase self.now.written }
    {
        self.written.map(|written| Loss {
            count: 1,
            phase: written.phase,
        })
    }

    // All that is held: received bytes, or else a written one.
    #[inline(always)]
    fn held_bytes(&self) -> Option<Loss>
        ensures count { lost_count result ≡ held_count (model self.now).received self.now.written }
        ensures phase { lost_phase result ≡ held_phase self.now.latched (model self.now).received self.now.written }
    {
        if self.received.is_empty() {
            return self.written_byte();
        }
        Some(Loss {
            count: self.received.len(),
            phase: self.latched,
        })
    }

    // Taken down before all that is held goes, and ACK with it.
    #[inline(always)]
    fn parting(&self) -> Parting
        ensures reaction { result.reaction ≡ dropping_ack self.now.flags.ack }
        ensures count { lost_count result.lost ≡ held_count (model self.now).received self.now.written }
        ensures phase { lost_phase result.lost ≡ held_phase self.now.latched (model self.now).received self.now.written }
    {
        Parting {
            reaction: self.dropping_ack(),
            lost: self.held_bytes(),
        }
    }

    // Told when they are gone.
    #[inline(always)]
    fn part(&self, parting: Parting) -> Response
        ensures { outcome (model self.now) result ≡ gives (model self.now) parting.reaction (loss (lost_count parting.lost) (lost_phase parting.lost) (model self.now)) }
    {
        Response {
            reaction: parting.reaction,
            answer: self.loss(parting.lost),
        }
    }

    // All that is held is lost, and the chip is as new but for its ID.
    pub fn reset(&mut self) -> Response
        ensures { outcome (model self.new) result ≡ resets (model self.old) }
    {
        let parting = self.parting();
        *self = Ncr5385e::new(self.id);
        self.part(parting)
    }

    // Held bytes are no more.
    fn empty(&mut self)
        ensures value { model self.new ≡ emptied (model self.old) }
        ensures none { self.new.received.count ≡ 0 }
    {
        self.received.clear();
        self.written = None;
    }

    // No plainer: what a step asks of the state and of received bytes is true of a chip at that step and not of every chip, so
    // it is no invariant of the type.
    pub(crate) fn go_idle(&mut self)
        requires { self.old.received.count ≡ 0 }
        ensures { model self.new ≡ gone_idle (model self.old) }
    {
        self.state = State::Idle;
        self.registers.source = self.registers.source % 128;
        self.flags.ack = false;
        self.flags.atn = false;
        self.registers.command = 0;
    }

    // An interrupt is raised: Interrupt shows its cause, and no command is under way any more.
    pub(crate) fn raise(&mut self, cause: Cause)
        requires { is_transferring self.old.state ≡ false }
        ensures { model self.new ≡ raised (cause_number cause) (model self.old) }
    {
        self.registers.command = 0;
        self.registers.interrupt = cause.into();
    }

    fn disconnect(&mut self) -> Response
        ensures { outcome (model self.new) result ≡ disconnects (model self.old) }
    {
        let parting = self.parting();
        self.empty();
        self.go_idle();
        self.part(parting)
    }

    fn pause(&mut self) -> Response
        requires { self.old.received.count ≡ 0 }
        ensures { outcome (model self.new) result ≡ pauses (model self.old) }
    {
        let reaction = self.dropping_ack();
        self.go_idle();
        self.flags.paused = true;
        Response {
            reaction,
            answer: self.quiet(),
        }
    }

    fn shut_down(&mut self)
        ensures { model self.new ≡ shut_down (model self.old) }
    {
        self.empty();
        self.flags.ack = false;
        self.state = State::Disabled;
        self.registers.command = 0;
        self.flags.atn = false;
    }

    fn disable(&mut self) -> Response
        ensures { outcome (model self.new) result ≡ disables (model self.old) }
    {
        let parting = self.parting();
        self.shut_down();
        self.part(parting)
    }

    // A command is accepted: a written byte is lost, and Paused cleared.
    fn accept(&mut self) -> Option<Loss>
        ensures after { model self.new ≡ accepted (model self.old) }
        ensures kept { self.new.received ≡ self.old.received }
        ensures count { lost_count result ≡ (if is_some self.old.written then 1 else 0) }
        ensures phase { lost_phase result ≡ written_phase self.old.written }
    {
        let lost = self.written_byte();
        self.written = None;
        self.flags.paused = false;
        lost
    }

    // A command that the state has begins.
    fn begin(&mut self, next: State, value: u8) -> Response
        requires { (self.old.registers.interrupt ≡ 0) × ((is_transferring self.old.state ≡ false) × (self.old.flags.ack ≡ false)) }
        ensures { outcome (model self.new) result ≡ started true next (model self.old) value }
    {
        let lost = self.accept();
        self.state = next;
        self.registers.command = value;
        self.single = u8::from(is_single(value));
        self.loss(lost).into()
    }

    // Any other is accepted too, and raises Invalid Command.
    fn begin_nothing(&mut self) -> Response
        requires { is_transferring self.old.state ≡ false }
        ensures { outcome (model self.new) result ≡ started false self.old.state (model self.old) 0 }
    {
        let lost = self.accept();
        self.raise(Cause::InvalidCommand);
        self.loss(lost).into()
    }

    // A code from 08h on.
    fn offer(&mut self, command: Command, value: u8) -> Response
        ensures { outcome (model self.new) result ≡ offered (model self.old) command value }
    {
        if self.registers.interrupt != 0 {
            return self.refuse(Refusal::InterruptPending);
        }
        match self.state {
            State::Idle if command.is_select() => self.begin(State::Arbitrating, value),
            State::Asked if command.is_transfer() => self.begin(State::Transferring, value),
            State::Idle | State::Asked => self.begin_nothing(),
            State::Arbitrating
            | State::Selecting
            | State::Waiting
            | State::Transferring
            | State::Disabled => { self.refuse(Refusal::Busy) }
        }
    }

    // A value was written to Command.
    pub(crate) fn obey(&mut self, command: Command, value: u8) -> Response
        ensures { outcome (model self.new) result ≡ commanded (model self.old) command value }
    {
        match command {
            Command::ChipReset => self.reset(),
            Command::Disconnect if self.state.is_connected() => self.disconnect(),
            Command::Pause if self.state.is_free() && self.registers.interrupt == 0 => self.pause(),
            Command::SetAtn if self.state.is_connected() => {
                self.flags.atn = true;
                self.done()
            }
            Command::MessageAccepted if self.flags.ack && !self.state.is_busy() => {
                self.flags.ack = false;
                self.tell()
            }
            Command::ChipDisable => self.disable(),
            Command::Disconnect
            | Command::Pause
            | Command::SetAtn
            | Command::MessageAccepted
            | Command::Unused => self.done(),
            Command::Select | Command::Transfer | Command::Invalid => self.offer(command, value),
        }
    }
}
