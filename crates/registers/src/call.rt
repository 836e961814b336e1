// The calls of the host, and how a list of calls is refused.
ghost use Rattle.std.specs.Prelude.{◌≡◌};
ghost use Rattle.registers.specs.Calls.{CallOf, no_such_call};
ghost use Rattle.registers.specs.Runs.{run_refusal};

use thiserror::Error;

// A call: the address of a register, and the value that is written to it.
#[derive(Clone, Copy, Debug, PartialEq, Eq)]
pub enum Call {
    Read(u8),
    Write(u8, u8),
    DmaRead,
    DmaWrite(u8),
    Tick,
    Turn,
    Reset,
}

// A call of a list as three plain numbers, which need not make sense: kind 0 read, 1 write, 2 DMA read, 3 DMA write, 4 tick,
// 5 turn, 6 reset. It has C's layout, since a host that is not written in Rattle hands over lists of them.
#[repr(C)]
#[derive(Clone, Copy, Debug, PartialEq, Eq)]
pub struct CallRow {
    pub kind: u8,
    pub address: u8,
    pub value: u8,
}

// The kind of a call that there is not.
#[derive(Clone, Copy, Debug, PartialEq, Eq, Error)]
#[error("there is no call of kind {0}")]
pub struct NoSuchCall(pub u8);

// What a run tells: how many calls it made, and how many bytes they lost.
#[derive(Clone, Copy, Debug, PartialEq, Eq)]
pub struct Ran {
    pub calls: u32,
    pub lost: u32,
}

#[derive(Clone, Copy, Debug, PartialEq, Eq, Error)]
pub enum RunRefusal {
    // There are more calls than a run takes, or fewer answers than calls.
    #[error("there are more calls than a run takes, or fewer answers than calls")]
    NoRoom,
}

impl TryFrom<CallRow> for Call {
    type Error = NoSuchCall;

    ghost try_from_gives = { CallOf };

    fn try_from(row: CallRow) -> Result<Call, NoSuchCall> {
        match row.kind {
            0 => Ok(Call::Read(row.address)),
            1 => Ok(Call::Write(row.address, row.value)),
            2 => Ok(Call::DmaRead),
            3 => Ok(Call::DmaWrite(row.value)),
            4 => Ok(Call::Tick),
            5 => Ok(Call::Turn),
            6 => Ok(Call::Reset),
            kind => Err(NoSuchCall(kind)),
        }
    }
}

// The number with which such a call is answered.
impl From<NoSuchCall> for u8 {
    ghost from_gives = { λ _ n. n ≡ no_such_call };

    fn from(_refusal: NoSuchCall) -> u8 {
        9
    }
}

// The refusal's number.
impl From<RunRefusal> for u8 {
    ghost from_gives = { λ r n. n ≡ run_refusal r };

    fn from(refusal: RunRefusal) -> u8 {
        match refusal {
            RunRefusal::NoRoom => 8,
        }
    }
}
