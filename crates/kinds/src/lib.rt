// Two kinds of blob in memory: one that is always settled, and one whose bytes wait for a settle and whose power can be cut.
#![tactic(auto)]

mod areas;
mod settle_later;
mod write_through;

ghost use Rattle.std.specs.Prelude.{◌≡◌};
ghost use Rattle.kinds.specs.declared.MakeError.TheVariants.{NoMemory};

pub use settle_later::SettleLater;
use std::alloc::AllocError;
pub use write_through::WriteThrough;

// Why a blob was not made.
#[derive(Clone, Copy, PartialEq, Eq, Debug)]
pub enum MakeError {
    // The ceiling is above 2^40.
    CeilingTooHigh,
    // The bytes that it is to hold are more than the ceiling.
    TooLong,
    NoMemory,
}

// By hand: a derived one would not promise which error it makes.
impl From<AllocError> for MakeError {
    ghost from_gives = { λ _ e. e ≡ NoMemory };

    fn from(_error: AllocError) -> MakeError {
        MakeError::NoMemory
    }
}

#[cfg(test)]
mod tests;
