// Why a call is refused.
ghost use Rattle.std.specs.Prelude.{◌≡◌};
ghost use Rattle.registers.specs.Refusals.{refusal_number};

use thiserror::Error;

#[derive(Clone, Copy, Debug, PartialEq, Eq, Error)]
pub enum Refusal {
    #[error("there is no register at that address")]
    NoRegister,
    #[error("the register is read-only")]
    ReadOnly,
    #[error("the chip is disabled")]
    ChipDisabled,
    // A command is refused while an interrupt is pending.
    #[error("an interrupt is pending")]
    InterruptPending,
    // A command is under way, or the state takes none.
    #[error("the chip is busy")]
    Busy,
    // There is no byte to read, or none is wanted.
    #[error("there is no byte to read, or none is wanted")]
    NoByte,
    // Data is for DMA in a DMA transfer, and only then.
    #[error("Data is moved by DMA in a DMA transfer, and only there")]
    Dma,
}

// The refusal's number, as an answer tells it.
impl From<Refusal> for u8 {
    ghost from_gives = { λ r n. n ≡ refusal_number r };

    fn from(refusal: Refusal) -> u8 {
        match refusal {
            Refusal::NoRegister => 1,
            Refusal::ReadOnly => 2,
            Refusal::ChipDisabled => 3,
            Refusal::InterruptPending => 4,
            Refusal::Busy => 5,
            Refusal::NoByte => 6,
            Refusal::Dma => 7,
        }
    }
}
