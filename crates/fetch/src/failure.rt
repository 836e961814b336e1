// Why the program ends early.
use bus::phase::Phase;
use std::alloc::AllocError;
use std::io;
use thiserror::Error;

#[derive(Debug, Drop, Error)]
pub enum Failure {
    #[error("usage: fetch [--pio|--dma].. IMAGE ADDRESS BLOCK COUNT [BREAK-AFTER]")]
    Usage,
    #[error("expected the {name}, a number up to {most}, and found '{word}'")]
    NoNumber {
        name: &'static str,
        most: u32,
        word: String,
    },
    #[error("expected the count, at least 1")]
    NoBlocks,
    #[error("{0} turns are spent")]
    TurnsSpent(u32),
    #[error("an interrupt out of place")]
    Interrupt,
    #[error("the drive sends more than was asked for")]
    TooMuch,
    #[error("{0} is out of place")]
    Phase(Phase),
    #[error("there is no station {0}")]
    NoStation(u8),
    #[error("another station reselects")]
    AnotherStation,
    #[error("the drive sent {got} bytes of {expected}")]
    Length {
        got: usize,
        expected: usize,
    },
    #[error("the drive answers {status:02x}h, {name}")]
    Refused {
        status: u8,
        name: &'static str,
    },
    #[error("the drive sent no status")]
    NoStatus,
    #[error(transparent)]
    Io(#[from] io::Error),
    #[error(transparent)]
    Memory(#[from(alloc)] AllocError),
}
