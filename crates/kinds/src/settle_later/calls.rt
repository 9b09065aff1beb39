// The calls of a settle-later blob.
ghost use Rattle.std.specs.Prelude.{◌≡◌};
ghost use Rattle.blob.specs.Calls.{Read, Wrote, Resized, Settling, Restarted};
ghost use Rattle.kinds.specs.Later.{later, later_sound};
ghost use Rattle.kinds.specs.Cuts.{KeepsPlan, Stores, CameBack};

use super::SettleLater;
use blob::{Blob, Fault};

impl Blob for SettleLater {
    ghost meaning = { later };

    ghost sound = { later_sound };

    fn size(&self) -> u64 {
        self.working.len()
    }

    fn ceiling(&self) -> u64 {
        self.working.ceiling()
    }

    fn read(&mut self, offset: u64, buf: &mut [u8]) -> Result<(), Fault>
        ensures read { Read (later self.old) offset buf.old buf.new (later self.new) result }
        ensures same { self.new ≡ self.old }
    {
        self.working.holds(offset, buf.len() as u64)?;
        self.powered()?;
        self.working.read(offset, buf);
        Ok(())
    }

    fn write(&mut self, offset: u64, bytes: &[u8]) -> Result<(), Fault>
        ensures wrote { Wrote (later self.old) offset bytes.now (later self.new) result }
        ensures stores { Stores self.old offset bytes.now self.new result }
    {
        self.working.takes(offset, bytes.len() as u64)?;
        self.powered()?;
        self.store(offset, bytes);
        self.powered()
    }

    fn resize(&mut self, len: u64) -> Result<(), Fault>
        ensures resized { Resized (later self.old) len (later self.new) result }
        ensures settled { self.new.settled ≡ self.old.settled }
        ensures plan { KeepsPlan self.old self.new }
    {
        self.working.fits(len)?;
        self.powered()?;
        self.working.resize(len);
        Ok(())
    }

    fn settle(&mut self) -> Result<(), Fault>
        ensures settles { Settling (later self.old) (later self.new) result }
        ensures plan { KeepsPlan self.old self.new }
    {
        self.powered()?;
        self.settled.copy_from(&self.working);
        Ok(())
    }

    fn restart(&mut self)
        ensures restarted { Restarted (later self.old) (later self.new) }
        ensures back { CameBack self.old self.new }
    {
        self.come_back();
    }
}
