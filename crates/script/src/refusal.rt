// Why a row makes no record.
ghost use Rattle.std.specs.Prelude.{◌≡◌};
ghost use Rattle.script.specs.Refusals.{record_refusal};

use thiserror::Error;

#[derive(Clone, Copy, Debug, PartialEq, Eq, Error)]
pub enum RecordRefusal {
    #[error("the kind is above 4")]
    Kind,
    #[error("the phase is above 7")]
    Phase,
    #[error("the parity is above 1")]
    Parity,
}

// The refusal's number.
impl From<RecordRefusal> for u8 {
    ghost from_gives = { λ r n. n ≡ record_refusal r };

    fn from(refusal: RecordRefusal) -> u8 {
        match refusal {
            RecordRefusal::Kind => 10,
            RecordRefusal::Phase => 11,
            RecordRefusal::Parity => 12,
        }
    }
}
