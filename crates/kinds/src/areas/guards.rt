// What of a call an area has room for: each of these refuses the others.
ghost use Rattle.std.specs.Prelude.{◌+◌, ◌≤◌, length, OkIff, IsOkUnless};
ghost use Rattle.kinds.specs.Held.{held, room};

use super::Area;
use blob::Fault;

impl Area {
    // Passes where the string has `n` bytes from `at` on.
    pub(crate) fn holds(&self, at: u64, n: u64) -> Result<(), Fault>
        ensures passes { OkIff result (at + n ≤ length (held self.now)) tt }
        ensures refuses { IsOkUnless result Fault.Refused }
    {
        if at <= self.len() && n <= self.len() - at {
            Ok(())
        } else {
            Err(Fault::Refused)
        }
    }

    // Passes where `n` bytes can be written from `at` on.
    pub(crate) fn takes(&self, at: u64, n: u64) -> Result<(), Fault>
        ensures passes { OkIff result ((at ≤ length (held self.now)) × (at + n ≤ room self.now)) tt }
        ensures refuses { IsOkUnless result Fault.Refused }
    {
        if at <= self.len() && n <= self.ceiling - at {
            Ok(())
        } else {
            Err(Fault::Refused)
        }
    }

    // Passes where the string can have the length `len`.
    pub(crate) fn fits(&self, len: u64) -> Result<(), Fault>
        ensures passes { OkIff result (len ≤ room self.now) tt }
        ensures refuses { IsOkUnless result Fault.Refused }
    {
        if len <= self.ceiling {
            Ok(())
        } else {
            Err(Fault::Refused)
        }
    }
}
