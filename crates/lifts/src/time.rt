ghost use Rattle.std.specs.Prelude.{◌≡◌, ◌+◌, ◌*◌, ◌<◌};

use std::fmt;

// Seconds as a planner reads them.
#[derive(Clone, Copy, PartialEq, Eq, Debug)]
pub struct HoistingTime {
    hours: u64,
    minutes: u64,
    seconds: u64,
}

impl HoistingTime {
    pub fn of(all: u64) -> HoistingTime
        ensures whole { result.hours * 3600 + result.minutes * 60 + result.seconds ≡ all }
        ensures below { (result.minutes < 60) × (result.seconds < 60) }
    {
        HoistingTime {
            hours: all / 3600,
            minutes: all % 3600 / 60,
            seconds: all % 60,
        }
    }
}

impl fmt::Display for HoistingTime {
    fn fmt<W: fmt::Write>(&self, f: &mut fmt::Formatter<W>) -> fmt::Result {
        let HoistingTime {
            hours,
            minutes,
            seconds,
        } = *self;
        write!(f, "{hours} h {minutes} min {seconds} s")
    }
}
