// Why a chain is refused.
ghost use Rattle.std.specs.Prelude.{◌≡◌};
ghost use Rattle.chain.specs.Refusals.{chain_refusal, refused_record};

use thiserror::Error;

#[derive(Clone, Copy, Debug, PartialEq, Eq, Error)]
pub enum ChainRefusal {
    // The next of this record is not zero, and yet leads nowhere: it does not go upward, or leaves the table.
    #[error("the next of record {0} does not go upward, or leaves the table")]
    WrongNext(usize),
}

impl ChainRefusal {
    // The record that it names.
    pub fn record(self) -> usize
        ensures { result ≡ refused_record self }
    {
        match self {
            ChainRefusal::WrongNext(record) => record,
        }
    }
}

// The refusal's number.
impl From<ChainRefusal> for u8 {
    ghost from_gives = { λ r n. n ≡ chain_refusal r };

    fn from(refusal: ChainRefusal) -> u8 {
        match refusal {
            ChainRefusal::WrongNext(_) => 13,
        }
    }
}
