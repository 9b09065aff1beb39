// The check that a script has chosen: an enum and no `dyn Check`, to which no impl gives the bound.
ghost use Rattle.drive.specs.Chosen;

use crate::problem::Problem;
use checks::{Check, Crc32c, OlderSum};
use std::str::FromStr;

#[derive(Clone, Copy)]
pub enum AnyCheck {
    Crc,
    Sum,
}

impl Check for AnyCheck {
    ghost sum = { Chosen.chosen_sum };

    ghost fits = { Chosen.fits };

    ghost tells = { Chosen.tells };

    fn checksum(&self, bytes: &[u8]) -> u32 {
        match self {
            AnyCheck::Crc => Crc32c.checksum(bytes),
            AnyCheck::Sum => OlderSum.checksum(bytes),
        }
    }
}

impl FromStr for AnyCheck {
    type Err = Problem;

    fn from_str(word: &str) -> Result<AnyCheck, Problem> {
        match word {
            "crc" => Ok(AnyCheck::Crc),
            "sum" => Ok(AnyCheck::Sum),
            _ => Err(Problem::UnknownWord),
        }
    }
}
