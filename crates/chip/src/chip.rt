// What the chip holds, and what is always true of it.
ghost use Rattle.std.specs.Prelude.{◌≡◌, ◌^◌, ◌<◌, ◌≤◌, true, false, None};
ghost use Rattle.bus.specs.Phases.{is_input};
ghost use Rattle.registers.specs.States.{is_transferring};
ghost use Rattle.chip.specs.Places.{places, holds_ack};

use bus::address::StationAddress;
use bus::phase::Phase;
use registers::answer::Reaction;
use registers::state::State;

// The registers that can be written, and those that the chip sets: the numbers that the host writes and reads, with C's layout,
// since a host that is not written in Rattle saves them.
#[repr(C)]
#[derive(Clone, Copy, Debug, Default, PartialEq, Eq)]
pub struct Registers {
    pub command: u8,
    pub control: u8,
    pub destination: u8,
    pub counter: u32,
    pub interrupt: u8,
    pub source: u8,
}

// What is on or off beside the registers.
#[derive(Clone, Copy, Debug, Default, PartialEq, Eq)]
pub struct Flags {
    pub paused: bool,
    pub parity_error: bool,
    pub atn: bool,
    pub ack: bool,
}

// Received bytes that the host has not read yet, oldest first. A buffer with its length: the chip is a plain value that is
// copied whole, without a heap.
#[derive(Clone, Copy)]
pub struct Received {
    pub bytes: [u8; 2],
    pub count: usize,
    ghost fits: { count ≤ places },
}

// A byte that the host wrote, and the phase of the transfer that it was written for.
#[derive(Clone, Copy, Debug, PartialEq, Eq)]
pub struct Written {
    pub byte: u8,
    pub phase: Phase,
}

// Bytes that a call loses, and the phase in which they came.
#[derive(Clone, Copy, Debug, PartialEq, Eq)]
pub(crate) struct Loss {
    pub(crate) count: u8,
    pub(crate) phase: Phase,
}

// What a call that loses all that is held has to tell: what the station hears, and what is lost.
#[derive(Clone, Copy, Debug, PartialEq, Eq)]
pub(crate) struct Parting {
    pub(crate) reaction: Reaction,
    pub(crate) lost: Option<Loss>,
}

#[derive(Clone, Copy)]
pub struct Ncr5385e {
    pub id: StationAddress,
    pub state: State,
    // The phase that the station asked for last.
    pub latched: Phase,
    // What a command with Single Byte has left to move: a count, like the counter, of one byte or none.
    pub single: u8,
    pub registers: Registers,
    pub flags: Flags,
    pub received: Received,
    pub written: Option<Written>,
    // Bytes are received in a transfer and nowhere else, and of an input; then no byte is written.
    ghost settled: { (is_transferring state ≡ false → received.count ≡ 0) },
    ghost inward: { (is_input latched ≡ false → received.count ≡ 0) },
    ghost alone: { (is_transferring state ≡ true → is_input latched ≡ true → written ≡ None) },
    // A transfer goes on only while no interrupt is pending.
    ghost calm: { (is_transferring state ≡ true → registers.interrupt ≡ 0) },
    // ACK stays on after the last byte of a message, in the transfer and after it.
    ghost acked: { (flags.ack ≡ true → holds_ack state ≡ true) },
    // The transfer counter has 24 bits.
    ghost width: { registers.counter < 2 ^ 24 },
}
