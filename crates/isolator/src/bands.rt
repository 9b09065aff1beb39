// The lifts by their load, as a picture.
ghost use Rattle.std.specs.Prelude.{◌≡◌};
ghost use Rattle.isolator.specs.Bands.{band_of, in_band};

use crate::life::Bar;
use lifts::Lift;
use std::fmt;

// How many kilograms wide a band is.
const WIDTH: u32 = 500;

// The last band: all loads from the rated load on.
const LAST: u32 = 8;

// The band that a load falls into.
fn band(load: u32) -> u32
    ensures { result ≡ band_of load }
{
    (load / WIDTH).min(LAST)
}

// How many lifts fall into a band.
fn lifts_in(lifts: &[Lift], wanted: u32) -> usize
    ensures { result ≡ in_band wanted lifts.now }
{
    lifts
        .iter()
        .filter(|lift| band(lift.load) == wanted)
        .count()
}

// The picture of a list of lifts: a row for each band, with a sign for each lift.
#[derive(Clone, Copy)]
pub struct Bands<'a> {
    pub lifts: &'a [Lift],
}

impl fmt::Display for Bands<'_> {
    fn fmt<W: fmt::Write>(&self, f: &mut fmt::Formatter<W>) -> fmt::Result {
        write!(f, "Lifts by load, in steps of {WIDTH} kg:")?;
        // A band is its number alone.
        for k in 0..=LAST {
            let from = k * WIDTH;
            let count = lifts_in(self.lifts, k) as u64;
            let bar = Bar {
                filled: count,
                columns: count,
            };
            write!(f, "\n{from:>6} kg |{bar}")?;
        }
        Ok(())
    }
}
