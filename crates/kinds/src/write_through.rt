// A blob that is always settled: what a call writes stays, and no call fails.
ghost use Rattle.std.specs.Prelude.{◌≡◌, []};
ghost use Rattle.kinds.specs.Making.{Made, Fresh};
ghost use Rattle.kinds.specs.Through.{through, through_sound};

use crate::MakeError;
use crate::areas::Area;
use blob::{Blob, Fault};
use std::alloc::Global;

#[derive(Drop)]
pub struct WriteThrough {
    area: Area,
}

impl WriteThrough {
    // An empty blob.
    pub fn new(heap: Global, ceiling: u64) -> Result<WriteThrough, MakeError>
        ensures { Made ceiling [] (λ b. Fresh (through b) [] ceiling) result }
    {
        WriteThrough::with_bytes(heap, ceiling, &[])
    }

    // A blob that shows `bytes`.
    pub fn with_bytes(heap: Global, ceiling: u64, bytes: &[u8]) -> Result<WriteThrough, MakeError>
        ensures { Made ceiling bytes.now (λ b. Fresh (through b) bytes.now ceiling) result }
    {
        let area = Area::with_bytes(heap, ceiling, bytes)?;
        Ok(WriteThrough { area })
    }

    // The shown bytes.
    pub fn shown(&self) -> &[u8]
        ensures { result.now ≡ (through self.now).shown }
    {
        self.area.bytes()
    }
}

impl Blob for WriteThrough {
    ghost meaning = { through };

    ghost sound = { through_sound };

    fn size(&self) -> u64 {
        self.area.len()
    }

    fn ceiling(&self) -> u64 {
        self.area.ceiling()
    }

    fn read(&mut self, offset: u64, buf: &mut [u8]) -> Result<(), Fault> {
        self.area.holds(offset, buf.len() as u64)?;
        self.area.read(offset, buf);
        Ok(())
    }

    fn write(&mut self, offset: u64, bytes: &[u8]) -> Result<(), Fault> {
        self.area.takes(offset, bytes.len() as u64)?;
        self.area.write(offset, bytes);
        Ok(())
    }

    fn resize(&mut self, len: u64) -> Result<(), Fault> {
        self.area.fits(len)?;
        self.area.resize(len);
        Ok(())
    }

    fn settle(&mut self) -> Result<(), Fault> {
        Ok(())
    }

    fn restart(&mut self) {}
}
