// The numbers of a chip, and the chip of such numbers.
ghost use Rattle.std.specs.Prelude.{◌≡◌};
ghost use Rattle.bus.specs.Phases.{phase_number};
ghost use Rattle.chip.specs.Model.{items};
ghost use Rattle.registers.specs.States.{state_number};
ghost use Rattle.saved.specs.Chips.{flag_number, flag_numbers, received_numbers, received_in, written_numbers, chip_in, together, Unpacks};

use super::numbers::{SavedChip, SavedFlags, SavedReceived, SavedWritten};
use super::refusal::NotSaved;
use bus::address::StationAddress;
use bus::phase::Phase;
use chip::chip::{Flags, Ncr5385e, Received, Written};
use registers::state::State;

// The transfer counter has 24 bits.
const COUNTER_END: u32 = 0x100_0000;

impl From<Flags> for SavedFlags {
    ghost from_gives = { λ flags saved. saved ≡ flag_numbers flags };

    fn from(flags: Flags) -> SavedFlags {
        SavedFlags {
            paused: u8::from(flags.paused),
            parity_error: u8::from(flags.parity_error),
            atn: u8::from(flags.atn),
            ack: u8::from(flags.ack),
        }
    }
}

impl From<Received> for SavedReceived {
    ghost from_gives = { λ received saved. saved ≡ received_numbers (items received) };

    fn from(received: Received) -> SavedReceived {
        let [first, second] = received.bytes;
        match received.count {
            0 => SavedReceived::default(),
            1 => SavedReceived {
                count: 1,
                first,
                second: 0,
            },
            _ => SavedReceived {
                count: 2,
                first,
                second,
            },
        }
    }
}

impl From<Option<Written>> for SavedWritten {
    ghost from_gives = { λ written saved. saved ≡ written_numbers written };

    fn from(written: Option<Written>) -> SavedWritten {
        match written {
            None => SavedWritten::default(),
            Some(kept) => SavedWritten {
                count: 1,
                byte: kept.byte,
                phase: u8::from(kept.phase),
            },
        }
    }
}

impl From<Ncr5385e> for SavedChip {
    ghost from_gives = { λ chip saved. saved ≡ chip_in chip };

    fn from(chip: Ncr5385e) -> SavedChip {
        SavedChip {
            registers: chip.registers,
            id: chip.id.number(),
            state: u8::from(chip.state),
            latched: u8::from(chip.latched),
            single: chip.single,
            flags: SavedFlags::from(chip.flags),
            received: SavedReceived::from(chip.received),
            written: SavedWritten::from(chip.written),
        }
    }
}

// A function: neither a byte nor a flag is a type of ours, so no TryFrom can stand between them (it was tried), and a type of
// our own for a flag of C would be no plainer.
fn flag_of(number: u8) -> Result<bool, NotSaved>
    ensures { Unpacks flag_number number result }
{
    match number {
        0 => Ok(false),
        1 => Ok(true),
        _ => Err(NotSaved),
    }
}

impl TryFrom<SavedFlags> for Flags {
    type Error = NotSaved;

    ghost try_from_gives = { Unpacks flag_numbers };

    fn try_from(saved: SavedFlags) -> Result<Flags, NotSaved> {
        let paused = flag_of(saved.paused)?;
        let parity_error = flag_of(saved.parity_error)?;
        let atn = flag_of(saved.atn)?;
        let ack = flag_of(saved.ack)?;
        Ok(Flags {
            paused,
            parity_error,
            atn,
            ack,
        })
    }
}

impl TryFrom<SavedReceived> for Received {
    type Error = NotSaved;

    ghost try_from_gives = { Unpacks received_in };

    fn try_from(saved: SavedReceived) -> Result<Received, NotSaved> {
        if saved.count > 2 {
            return Err(NotSaved);
        }
        let received = Received {
            bytes: [saved.first, saved.second],
            count: saved.count as usize,
        };
        // A free place is zero.
        if SavedReceived::from(received) == saved {
            Ok(received)
        } else {
            Err(NotSaved)
        }
    }
}

impl TryFrom<SavedWritten> for Option<Written> {
    type Error = NotSaved;

    ghost try_from_gives = { Unpacks written_numbers };

    fn try_from(saved: SavedWritten) -> Result<Option<Written>, NotSaved> {
        match saved.count {
            0 if saved == SavedWritten::default() => Ok(None),
            1 => Ok(Some(Written {
                byte: saved.byte,
                phase: Phase::try_from(saved.phase)?,
            })),
            _ => Err(NotSaved),
        }
    }
}

// What a chip in this state, with this phase, always keeps: bytes are received only in a transfer and of an input, and then
// none is written; a transfer goes on only while no interrupt is pending; ACK is on only in a transfer or waiting.
fn holds_together(state: State, latched: Phase, saved: &SavedChip) -> bool
    requires state { state_number state ≡ saved.now.state }
    requires latched { phase_number latched ≡ saved.now.latched }
    ensures { result ≡ together saved.now }
{
    let transfers = state.is_transferring();
    let inward = latched.is_input();
    let none = saved.received.count == 0;
    (transfers || none)
        && (inward || none)
        && (!transfers || !inward || saved.written.count == 0)
        && (!transfers || saved.registers.interrupt == 0)
        && (saved.flags.ack == 0 || transfers || state == State::Waiting)
}

// The chip of these numbers, or an error where no chip has them.
impl TryFrom<SavedChip> for Ncr5385e {
    type Error = NotSaved;

    ghost try_from_gives = { Unpacks chip_in };

    fn try_from(saved: SavedChip) -> Result<Ncr5385e, NotSaved> {
        let id = StationAddress::try_from(saved.id)?;
        let state = State::try_from(saved.state)?;
        let latched = Phase::try_from(saved.latched)?;
        if saved.registers.counter >= COUNTER_END || !holds_together(state, latched, &saved) {
            return Err(NotSaved);
        }
        let flags = Flags::try_from(saved.flags)?;
        let received = Received::try_from(saved.received)?;
        let written = Option::<Written>::try_from(saved.written)?;
        Ok(Ncr5385e {
            id,
            state,
            latched,
            single: saved.single,
            registers: saved.registers,
            flags,
            received,
            written,
        })
    }
}
