// What can go wrong, and what the user is told of it.
use std::alloc::AllocError;
use std::io;
use tabletext::BadLine;
use terms::{Failure, Refusal};
use thiserror::Error;
use words::Fault;

// No error of anyhow: an argument is told whole, however long it is.
#[derive(Debug, Drop, Error)]
pub enum Trouble {
    #[error("usage: replay row RULE RECORDING [CELL ..], or replay tape TABLE RECORDING")]
    Usage,
    #[error("there is no machine of the kind {0}, only row and tape")]
    NoKind(String),
    #[error("{0} is no number")]
    NoNumber(String),
    #[error("the recording cannot be read: {0}")]
    NoFile(io::Error),
    #[error("the table cannot be read: {0}")]
    NoTable(io::Error),
    #[error("{0}")]
    BadTable(#[from] BadLine),
    #[error("{0}")]
    Words(#[from] Fault),
    #[error("refused: {0}")]
    Refused(#[from] Refusal),
    #[error("{0}")]
    Failed(#[from] Failure),
    #[error("no memory")]
    NoMemory(#[from(alloc)] AllocError),
    // the arguments or the output
    #[error("{0}")]
    Io(#[from] io::Error),
}
