// What can go wrong in the lift log, each as a sentence.
ghost use Rattle.std.specs.Prelude.{◌≡◌};
ghost use Rattle.lifts.specs.Errors.{power_cut, as_log_error};
ghost use Rattle.lifts.specs.declared.error.LogError.TheVariants.{NoMemory, Refused};

use kinds::MakeError;
use paged::{BlobCall, InputRefusal, Refusal, StateRefusal};
use std::alloc::{AllocError, AllocFailed};
use thiserror::Error;

#[derive(Clone, Copy, Debug, Error)]
pub enum LogError {
    #[error("There is no memory left for the lift log.")]
    NoMemory,
    // The blob was not made.
    #[error("The log was not made: {}.", why_not_made(*.0))]
    NotMade(#[from] MakeError),
    // A call of the log was refused.
    #[error("The log was refused (number {}): {}.", number_of(*.0), why_refused(*.0))]
    Refused(Refusal<()>),
    // What stands in the pages ends within a record.
    #[error("The last lift in the log is cut short.")]
    CutRecord,
}

impl LogError {
    // Whether a call of the storage failed, as it does where the power is gone.
    pub fn is_power_cut(self) -> bool
        ensures { result ≡ power_cut self }
    {
        match self {
            LogError::Refused(Refusal::State(StateRefusal::CallFailed(_, _))) => true,
            _ => false,
        }
    }
}

// Not Display of what is told: these are the words of a lift log.
fn why_not_made(why: MakeError) -> &'static str {
    match why {
        MakeError::CeilingTooHigh => "its ceiling is above 2^40 bytes",
        MakeError::TooLong => "it begins with more bytes than its ceiling",
        MakeError::NoMemory => "there is no memory left",
    }
}

// The number in the list of refusals.
fn number_of(refusal: Refusal<()>) -> u8 {
    match refusal {
        Refusal::Input((), input) => input.number(),
        Refusal::State(state) => state.number(),
    }
}

fn why_refused(refusal: Refusal<()>) -> &'static str {
    match refusal {
        Refusal::Input((), input) => why_input(input),
        Refusal::State(state) => why_state(state),
    }
}

fn why_input(refusal: InputRefusal) -> &'static str {
    match refusal {
        InputRefusal::PageSizeZero => "the page size is 0",
        InputRefusal::CapacityTooLarge => "the wish for capacity is too large",
        InputRefusal::TipBufferShort => "the tip buffer is too short",
        InputRefusal::PageBufferShort => "the page buffer is too short",
        InputRefusal::SizeMismatch => "the storage has another size than expected",
        InputRefusal::PageOutOfRange => "the page's number is too large",
    }
}

fn why_state(refusal: StateRefusal) -> &'static str {
    match refusal {
        StateRefusal::CeilingPassed => "the storage has no room for the lift",
        StateRefusal::CallFailed(call, _) => why_failed(call),
        StateRefusal::PageRejected => "none of the page's slots is valid",
        StateRefusal::PagePastEnd => "the storage ends before the page does",
    }
}

fn why_failed(call: BlobCall) -> &'static str {
    match call {
        BlobCall::Read => "the storage could not be read",
        BlobCall::Write => "the storage could not be written",
        BlobCall::Resize => "the storage could not be cut",
        BlobCall::Settle => "the storage could not be settled",
    }
}

// By hand, as the next: derived ones would not promise which error they make.
impl From<AllocError> for LogError {
    ghost from_gives = { λ _ e. e ≡ NoMemory };

    fn from(_error: AllocError) -> LogError {
        LogError::NoMemory
    }
}

impl<T: Drop> From<AllocFailed<T>> for LogError {
    ghost from_gives = { λ _ e. e ≡ NoMemory };

    fn from(_error: AllocFailed<T>) -> LogError {
        LogError::NoMemory
    }
}

impl<W: Drop> From<Refusal<W>> for LogError {
    ghost from_gives = { λ r e. e ≡ as_log_error r };

    fn from(error: Refusal<W>) -> LogError {
        match error {
            Refusal::Input(_, refusal) => LogError::Refused(Refusal::Input((), refusal)),
            Refusal::State(refusal) => LogError::Refused(Refusal::State(refusal)),
        }
    }
}
