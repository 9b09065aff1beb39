// What power does: a write may take it down, and a restart brings it back.
ghost use Rattle.std.specs.Prelude.{◌≡◌, ◌+◌, ◌≤◌, length, IsTrue, OkIff, IsOkUnless};
ghost use Rattle.kinds.specs.Held.{held, room};
ghost use Rattle.kinds.specs.Cuts.{stored, Stored, CameBack};
ghost use Rattle.kinds.specs.Later.{later};

use super::SettleLater;
use blob::Fault;

impl SettleLater {
    // The shown bytes, which power has no part in.
    pub fn shown(&self) -> &[u8]
        ensures { result.now ≡ (later self.now).shown }
    {
        self.working.bytes()
    }

    // Passes where power is up.
    pub(super) fn powered(&self) -> Result<(), Fault>
        ensures passes { OkIff result (IsTrue self.now.power) tt }
        ensures fails { IsOkUnless result Fault.Failed }
    {
        if self.power {
            Ok(())
        } else {
            Err(Fault::Failed)
        }
    }

    // How many of `n` bytes are stored before the power goes down.
    fn stored_count(&self, n: u64) -> u64
        ensures { result ≡ stored self.now.cut self.now.written n }
    {
        self.cut
            .map_or(n, |cut| n.min(cut.saturating_sub(self.written)))
    }

    // Stores `bytes` from `offset` on, or as many of the first of them as come before the cut; then power is down.
    pub(super) fn store(&mut self, offset: u64, bytes: &[u8])
        requires { (offset ≤ length (held self.old.working)) × (offset + length bytes.now ≤ room self.old.working) }
        ensures { Stored self.old offset bytes.now self.new }
    {
        let n = bytes.len() as u64;
        let count = self.stored_count(n);
        self.working.write(offset, &bytes[0..count as usize]);
        self.written = self.written.saturating_add(count);
        self.power = count == n;
    }

    // Shows and settles what the pattern picks.
    pub(super) fn come_back(&mut self)
        ensures { CameBack self.old self.new }
    {
        self.working.pick(&self.settled, &self.pattern);
        self.settled.copy_from(&self.working);
        self.power = true;
        self.written = 0;
    }
}
