// How much of its design life a hoist has used. A lift uses as much of it as (load / rated load)³ × hoisting time at full load: the cubic load spectrum
// by which the use of a hoist is followed up (ISO 12482).
ghost use Rattle.std.specs.Prelude.{◌≡◌, ◌*◌};
ghost use Rattle.isolator.specs.Life.{strain, use_of, columns_of};

use lifts::{HoistingTime, Lift};
use std::fmt;

// The load that the hoist is built for, in kilograms.
pub const RATED: u32 = 4_000;

// The design life: so many hours of hoisting at the rated load.
const LIFE_HOURS: u64 = 1_600;

// How many of them were used before the log began, by the crane's papers.
const EARLIER_HOURS: u64 = 611;

// How many columns the bar has that shows the used share.
const COLUMNS: u64 = 40;

// A load to the third power.
fn cube(load: u32) -> u128
    ensures { result ≡ load * load * load }
{
    let load = load as u128;
    load * load * load
}

// The cube of a lift's load, times its hoisting time: kg³ s.
pub(crate) fn strain_of(lift: Lift) -> u128
    ensures { result ≡ strain lift }
{
    cube(lift.load) * lift.seconds as u128
}

// What a hoist has used of its design life. Quotients are rounded up, so that it has never used more than is told.
#[derive(Clone, Copy)]
pub struct Use {
    // Seconds at the rated load that strain the hoist as much as the logged lifts do.
    pub seconds: u64,
    // The used share of the design life, in hundredths of a percent, with what was used before the log began.
    pub share: u64,
}

impl Use {
    // What the logged lifts have used, by the sum of their strains.
    pub(crate) fn of(strain: u64) -> Use
        ensures { result ≡ use_of strain }
    {
        let rated = RATED as u64;
        let seconds = strain.div_ceil(rated * rated * rated);
        let used = EARLIER_HOURS * 3600 + seconds;
        Use {
            seconds,
            share: (used * 10_000).div_ceil(LIFE_HOURS * 3600),
        }
    }

    // How many of the bar's columns are filled.
    pub(crate) fn columns(self) -> u64
        ensures { result ≡ columns_of self.share }
    {
        self.share.min(10_000) * COLUMNS / 10_000
    }
}

impl fmt::Display for Use {
    fn fmt<W: fmt::Write>(&self, f: &mut fmt::Formatter<W>) -> fmt::Result {
        let time = HoistingTime::of(self.seconds);
        let whole = self.share / 100;
        let rest = self.share % 100;
        let bar = Bar {
            filled: self.columns(),
            columns: COLUMNS,
        };
        writeln!(
            f,
            "Full-load time: {time}, and {EARLIER_HOURS} h before the log"
        )?;
        writeln!(
            f,
            "Design life used: {whole}.{rest:02} % of {LIFE_HOURS} h at full load"
        )?;
        write!(f, "[{bar}]")
    }
}

// A row of signs, of which the first are filled.
#[derive(Clone, Copy)]
pub struct Bar {
    pub filled: u64,
    pub columns: u64,
}

impl fmt::Display for Bar {
    fn fmt<W: fmt::Write>(&self, f: &mut fmt::Formatter<W>) -> fmt::Result {
        // A column is its number alone.
        for k in 0..self.columns {
            f.write_str(if k < self.filled { "#" } else { "." })?;
        }
        Ok(())
    }
}
