// What the maintenance planner reads of a list of lifts.
ghost use Rattle.std.specs.Prelude.{◌≡◌};
ghost use Rattle.lifts.specs.Summaries.{counted, summary_of};

use crate::lift::Lift;
use crate::time::HoistingTime;
use std::fmt;

// The sums stop at the largest number of 64 bits.
#[derive(Clone, Copy, Default, PartialEq, Eq, Debug)]
pub struct Summary {
    pub lifts: u64,
    // The hoisting time of all lifts.
    pub seconds: u64,
    // The heaviest load, in kilograms; 0 where there is no lift.
    pub heaviest: u32,
}

impl Summary {
    // The summary of a list of lifts.
    pub fn of(lifts: &[Lift]) -> Summary
        ensures { result ≡ summary_of lifts.now }
    {
        lifts
            .iter()
            .fold(Summary::default(), |summary, lift| summary.with(*lift))
    }

    // The summary with one lift more.
    pub fn with(self, lift: Lift) -> Summary
        ensures { result ≡ counted self lift }
    {
        Summary {
            lifts: self.lifts.saturating_add(1),
            seconds: self.seconds.saturating_add(lift.seconds as u64),
            heaviest: self.heaviest.max(lift.load),
        }
    }
}

impl fmt::Display for Summary {
    fn fmt<W: fmt::Write>(&self, f: &mut fmt::Formatter<W>) -> fmt::Result {
        let Summary {
            lifts,
            seconds,
            heaviest,
        } = *self;
        let time = HoistingTime::of(seconds);
        writeln!(f, "Lifts recorded: {lifts}")?;
        writeln!(f, "Hoisting time: {time}")?;
        write!(f, "Heaviest load: {heaviest} kg")
    }
}
