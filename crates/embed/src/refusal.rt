// Why a string is not served.
use registers::call::RunRefusal;
use thiserror::Error;

#[derive(Clone, Copy, Debug, PartialEq, Eq, Error)]
pub enum ServeRefusal {
    #[error("no string over such a station has these numbers")]
    NoString,
    #[error(transparent)]
    Run(RunRefusal),
}
