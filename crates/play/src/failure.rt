// Why the program ends early.
use std::alloc::AllocError;
use std::io;
use thiserror::Error;

#[derive(Debug, Drop, Error)]
pub enum Failure {
    #[error("usage: play (SCRIPT | --image IMAGE COMMAND N)...")]
    Usage,
    // the path of a script, the line that is no row, and what was expected in it
    #[error("{path}, line {line}: {fault}")]
    NoRow {
        path: String,
        line: u64,
        fault: String,
    },
    #[error("expected a command, twelve hex digits, and found '{0}'")]
    NoCommand(String),
    #[error("expected after how many bytes to break, up to 65535, and found '{0}'")]
    NoNumber(String),
    #[error("the exchange does not end")]
    Endless,
    #[error(transparent)]
    Io(#[from] io::Error),
    #[error(transparent)]
    Memory(#[from(alloc)] AllocError),
}
