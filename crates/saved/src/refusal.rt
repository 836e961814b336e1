// The answer where numbers are those of nothing.
use breaker::NoSuchStage;
use bus::address::NoSuchAddress;
use bus::phase::NoSuchPhase;
use registers::state::NoSuchState;
use thiserror::Error;

// One value, since the clauses say when it comes: where no value has the numbers.
#[derive(Clone, Copy, Debug, PartialEq, Eq, Error)]
#[error("no value has these numbers")]
pub struct NotSaved;

// Four impls by hand: `map_err` in their place was tried, and the proof of a chip's invariants did not close.
impl From<NoSuchAddress> for NotSaved {
    fn from(_none: NoSuchAddress) -> NotSaved {
        NotSaved
    }
}

impl From<NoSuchPhase> for NotSaved {
    fn from(_none: NoSuchPhase) -> NotSaved {
        NotSaved
    }
}

impl From<NoSuchState> for NotSaved {
    fn from(_none: NoSuchState) -> NotSaved {
        NotSaved
    }
}

impl From<NoSuchStage> for NotSaved {
    fn from(_none: NoSuchStage) -> NotSaved {
        NotSaved
    }
}
