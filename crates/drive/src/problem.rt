// Why a line of a script is not carried out, each as a part of a sentence.
use kinds::MakeError;
use std::alloc::AllocError;
use thiserror::Error;

#[derive(Clone, Copy, Debug, Error)]
pub enum Problem {
    #[error("there is no such command")]
    UnknownCommand,
    #[error("a word is missing")]
    TooFewWords,
    #[error("there is a word too many")]
    TooManyWords,
    #[error("a number is expected, in decimal and not too large")]
    NotANumber,
    #[error("a byte string is expected, in lowercase hex, or - where it is empty")]
    NotHex,
    // A word is none of those that the command takes.
    #[error("the command takes no such word")]
    UnknownWord,
    // The command needs a blob.
    #[error("there is no blob yet")]
    NoBlob,
    // Contents are only for a blob that was made on the line before.
    #[error("bytes only go right after blob")]
    BlobNotNew,
    #[error("{}", not_made(*.0))]
    NotMade(#[from] MakeError),
    #[error("there is no memory left")]
    NoMemory(#[from(alloc)] AllocError),
}

// Why a blob is not made, in a script's words.
fn not_made(error: MakeError) -> &'static str {
    match error {
        MakeError::CeilingTooHigh => "the ceiling is above 2^40",
        MakeError::TooLong => "the bytes are more than the ceiling",
        MakeError::NoMemory => "there is no memory for the blob",
    }
}

// A line that is not carried out.
#[derive(Clone, Copy, Debug, Error)]
#[error("line {line}: {problem}")]
pub struct Malformed {
    pub line: u64,
    pub problem: Problem,
}
