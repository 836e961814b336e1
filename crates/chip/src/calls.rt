// The calls of the host: registers, DMA and ticks.
ghost use Rattle.std.specs.Prelude.{◌≡◌, ◌^◌, ◌<◌};
ghost use Rattle.chip.specs.Model.{model};
ghost use Rattle.chip.specs.Outcomes.{outcome, silent};
ghost use Rattle.chip.specs.Reads.{status_of, shows, takes_data, puts_data, read_register, reads, is_chip_reset, write_register, writes, dma_check, dma_reads, dma_writes, runs_out, ticks};
ghost use Rattle.chip.specs.Views.{to_counter};

use super::answers::flag;
use super::chip::{Ncr5385e, Written};
use registers::answer::{Answer, Response};
use registers::cause::Cause;
use registers::command::{Code, Command};
use registers::refusal::Refusal;
use registers::register::Register;
use registers::state::State;

// What Diagnostic Status always shows.
const DIAGNOSTIC: u8 = 0x80;

impl Ncr5385e {
    // Auxiliary Status: Full, Parity Error, the latched phase in three bits, Paused, Counter Zero.
    fn status(&self) -> u8
        ensures { result ≡ status_of (model self.now) }
    {
        flag(!self.received.is_empty() || self.written.is_some(), 128)
            + flag(self.flags.parity_error, 64)
            + u8::from(self.latched) * 8
            + flag(self.flags.paused, 4)
            + flag(self.registers.counter == 0, 2)
    }

    fn show(&self, value: u8) -> Response
        ensures { outcome (model self.now) result ≡ shows value (model self.now) }
    {
        let answer = Answer {
            value,
            ..self.quiet()
        };
        answer.into()
    }

    // Reads the oldest received byte.
    fn take_data(&mut self) -> Response
        ensures { outcome (model self.new) result ≡ takes_data (model self.old) }
    {
        if self.received.is_empty() {
            return self.refuse(Refusal::NoByte);
        }
        let byte = self.received.take();
        self.valued(byte, self.latched).into()
    }

    // Writes a byte for the transfer under way.
    fn put_data(&mut self, value: u8) -> Response
        ensures { outcome (model self.new) result ≡ puts_data (model self.old) value }
    {
        if !self.wants_byte() {
            return self.refuse(Refusal::NoByte);
        }
        self.written = Some(Written {
            byte: value,
            phase: self.latched,
        });
        self.valued(0, self.latched).into()
    }

    // A register read.
    pub fn read(&mut self, address: u8) -> Response
        ensures { outcome (model self.new) result ≡ reads (model self.old) address }
    {
        if self.state.is_disabled() {
            return self.refuse(Refusal::ChipDisabled);
        }
        let Some(register) = Register::at(address) else {
            return self.refuse(Refusal::NoRegister);
        };
        self.read_register(register)
    }

    fn read_register(&mut self, register: Register) -> Response
        ensures { outcome (model self.new) result ≡ read_register (model self.old) register }
    {
        let [_, high, middle, low] = self.registers.counter.to_be_bytes();
        match register {
            Register::Data if self.in_dma() => self.refuse(Refusal::Dma),
            Register::Data => self.take_data(),
            Register::Command => self.show(self.registers.command),
            Register::Control => self.show(self.registers.control),
            Register::DestinationId => self.show(self.registers.destination),
            Register::AuxiliaryStatus => self.show(self.status()),
            Register::Id => self.show(self.id.number()),
            Register::Interrupt => {
                let pending = self.registers.interrupt;
                self.registers.interrupt = 0;
                self.flags.parity_error = false;
                self.show(pending)
            }
            Register::SourceId => self.show(self.registers.source),
            Register::DiagnosticStatus => self.show(DIAGNOSTIC),
            Register::CounterHigh => self.show(high),
            Register::CounterMiddle => self.show(middle),
            Register::CounterLow => self.show(low),
        }
    }

    // Chip Reset written to Command, which a disabled chip takes too.
    fn is_chip_reset(address: u8, value: u8) -> bool
        ensures { result ≡ is_chip_reset address value }
    {
        address == u8::from(Register::Command) && value & 31 == Code::ChipReset as u8
    }

    // A register write.
    pub fn write(&mut self, address: u8, value: u8) -> Response
        ensures { outcome (model self.new) result ≡ writes (model self.old) address value }
    {
        if self.state.is_disabled() && !Ncr5385e::is_chip_reset(address, value) {
            return self.refuse(Refusal::ChipDisabled);
        }
        let Some(register) = Register::at(address) else {
            return self.refuse(Refusal::NoRegister);
        };
        self.write_register(register, value)
    }

    fn write_register(&mut self, register: Register, value: u8) -> Response
        ensures { outcome (model self.new) result ≡ write_register (model self.old) register value }
    {
        let [_, high, middle, low] = self.registers.counter.to_be_bytes();
        match register {
            Register::Data if self.in_dma() => self.refuse(Refusal::Dma),
            Register::Data => self.put_data(value),
            Register::Command => self.obey(Command::from(value), value),
            Register::Control => {
                self.registers.control = value & 7;
                self.done()
            }
            Register::DestinationId
            | Register::CounterHigh
            | Register::CounterMiddle
            | Register::CounterLow
                if self.state.is_busy() => { self.refuse(Refusal::Busy) }
            Register::DestinationId => {
                self.registers.destination = value & 7;
                self.done()
            }
            Register::CounterHigh => self.count(u32::from_be_bytes([0, value, middle, low])),
            Register::CounterMiddle => self.count(u32::from_be_bytes([0, high, value, low])),
            Register::CounterLow => self.count(u32::from_be_bytes([0, high, middle, value])),
            Register::AuxiliaryStatus
            | Register::Id
            | Register::Interrupt
            | Register::SourceId
            | Register::DiagnosticStatus => { self.refuse(Refusal::ReadOnly) }
        }
    }

    fn count(&mut self, counter: u32) -> Response
        requires { counter < 2 ^ 24 }
        ensures { outcome (model self.new) result ≡ silent (to_counter counter (model self.old)) }
    {
        self.registers.counter = counter;
        self.done()
    }

    // DMA moves bytes in a DMA transfer, and nowhere else.
    fn check_dma(&self) -> Result<(), Refusal>
        ensures { result ≡ dma_check (model self.now) }
    {
        if self.state.is_disabled() {
            return Err(Refusal::ChipDisabled);
        }
        if !self.in_dma() {
            return Err(Refusal::Dma);
        }
        Ok(())
    }

    // A byte of data read by DMA.
    pub fn dma_read(&mut self) -> Response
        ensures { outcome (model self.new) result ≡ dma_reads (model self.old) }
    {
        match self.check_dma() {
            Ok(()) => self.take_data(),
            Err(refusal) => self.refuse(refusal),
        }
    }

    // A byte of data written by DMA.
    pub fn dma_write(&mut self, value: u8) -> Response
        ensures { outcome (model self.new) result ≡ dma_writes (model self.old) value }
    {
        match self.check_dma() {
            Ok(()) => self.put_data(value),
            Err(refusal) => self.refuse(refusal),
        }
    }

    // The time for a selection runs out.
    fn run_out(&mut self) -> Response
        requires { self.old.received.count ≡ 0 }
        ensures { outcome (model self.new) result ≡ runs_out (model self.old) }
    {
        let reaction = self.dropping_ack();
        self.registers.counter = 0;
        self.go_idle();
        self.raise(Cause::Disconnected);
        Response {
            reaction,
            answer: self.quiet(),
        }
    }

    // 1,024 clocks have passed.
    pub fn tick(&mut self) -> Response
        ensures { outcome (model self.new) result ≡ ticks (model self.old) }
    {
        match self.state {
            State::Disabled => self.refuse(Refusal::ChipDisabled),
            State::Selecting if self.registers.counter == 1 => self.run_out(),
            State::Selecting if self.registers.counter > 0 => {
                self.registers.counter -= 1;
                self.done()
            }
            State::Idle
            | State::Arbitrating
            | State::Selecting
            | State::Waiting
            | State::Asked
            | State::Transferring => self.done(),
        }
    }
}
