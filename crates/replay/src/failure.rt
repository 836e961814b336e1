// Why the program ends early.
use std::alloc::AllocError;
use std::io;
use thiserror::Error;

// What is wrong with a line, or with the session that it ends.
#[derive(Debug, Drop, Error)]
pub enum Fault {
    #[error("{0}")]
    Unexpected(String),
    #[error("expected {0}")]
    Misplaced(&'static str),
    #[error("expected a file, and {path}: {error}")]
    NoFile { path: String, error: io::Error },
    #[error("expected script or drive, and the session ends")]
    NoStation,
    #[error("a run of the calls was refused")]
    RunRefused,
    #[error(transparent)]
    Io(#[from] io::Error),
    #[error(transparent)]
    Memory(#[from(alloc)] AllocError),
}

#[derive(Debug, Drop, Error)]
pub enum Failure {
    #[error("line {number}: {fault}")]
    Line { number: u64, fault: Fault },
    #[error(transparent)]
    Io(#[from] io::Error),
}
