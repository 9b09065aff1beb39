// Making a settle-later blob.
ghost use Rattle.std.specs.Prelude.{[]};
ghost use Rattle.kinds.specs.Making.{Made, Fresh};
ghost use Rattle.kinds.specs.Later.{later};
ghost use Rattle.kinds.specs.Cuts.{Planned};

use super::SettleLater;
use crate::MakeError;
use crate::areas::Area;
use std::alloc::Global;

impl SettleLater {
    // An empty blob.
    pub fn new(
        heap: Global,
        ceiling: u64,
        cut: Option<u64>,
        pattern: &[u8],
    ) -> Result<SettleLater, MakeError>
        ensures { Made ceiling [] (λ b. Fresh (later b) [] ceiling × Planned b cut pattern.now) result }
    {
        SettleLater::with_bytes(heap, ceiling, cut, pattern, &[])
    }

    // A blob that shows `bytes`, settled.
    pub fn with_bytes(
        heap: Global,
        ceiling: u64,
        cut: Option<u64>,
        pattern: &[u8],
        bytes: &[u8],
    ) -> Result<SettleLater, MakeError>
        ensures { Made ceiling bytes.now (λ b. Fresh (later b) bytes.now ceiling × Planned b cut pattern.now) result }
    {
        let working = Area::with_bytes(heap, ceiling, bytes)?;
        let settled = Area::with_bytes(heap, ceiling, bytes)?;
        let pattern = Vec::from_slice(heap, pattern)?;
        Ok(SettleLater {
            working,
            settled,
            power: true,
            written: 0,
            cut,
            pattern,
        })
    }
}
