// Checks: a number of four bytes for a string, that tells a single altered byte.
#![tactic(auto)]

ghost use Rattle.std.specs.Prelude.{◌≡◌, ℕ, List};
ghost use Rattle.checks.specs.Check.{FitsFour, TellsOne};

pub use crc::Crc32c;
pub use known::{KnownNumbers, known_numbers};
pub use older::OlderSum;

mod crc;
mod known;
mod older;

// Each kind of check says by `sum` which number a string has.
pub trait Check {
    ghost sum: { Self → List ℕ → ℕ };

    // The check of `bytes`.
    fn checksum(&self, bytes: &[u8]) -> u32
        ensures { result ≡ sum self.now bytes.now };

    ghost fits: { (c : Self) → FitsFour (sum c) };

    ghost tells: { (c : Self) → TellsOne (sum c) };
}
