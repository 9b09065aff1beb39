// What the maintenance planner reads of the lifts of a shift.
ghost use Rattle.std.specs.Prelude.{◌≡◌};
ghost use Rattle.lifts.specs.Summaries.{capped};
ghost use Rattle.isolator.specs.Summaries.{counted, summary_of};

use crate::life;
use crate::life::{RATED, Use};
use lifts::Lift;
use std::fmt;

// A sum that stops at the largest number of 64 bits.
fn add_strain(sum: u64, more: u128) -> u64
    ensures { result ≡ capped sum more }
{
    sum.saturating_add(u64::try_from(more).unwrap_or(u64::MAX))
}

// The sums stop at the largest number of 64 bits.
#[derive(Clone, Copy, Default)]
pub struct Summary {
    // What any log tells of its lifts.
    pub lifts: lifts::Summary,
    // The strain of all lifts.
    pub strain: u64,
}

impl Summary {
    // The summary of a list of lifts.
    pub(crate) fn of(lifts: &[Lift]) -> Summary
        ensures { result ≡ summary_of lifts.now }
    {
        lifts
            .iter()
            .fold(Summary::default(), |summary, lift| summary.with(*lift))
    }

    // The summary with one lift more.
    pub(crate) fn with(self, lift: Lift) -> Summary
        ensures { result ≡ counted self lift }
    {
        Summary {
            lifts: self.lifts.with(lift),
            strain: add_strain(self.strain, life::strain_of(lift)),
        }
    }
}

impl fmt::Display for Summary {
    fn fmt<W: fmt::Write>(&self, f: &mut fmt::Formatter<W>) -> fmt::Result {
        let Summary { lifts, strain } = *self;
        let hoist = Use::of(strain);
        writeln!(f, "{lifts} of {RATED} kg")?;
        write!(f, "{hoist}")
    }
}
