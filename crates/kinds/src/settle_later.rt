// A blob for trying power cuts: its bytes wait for a settle, a write can take the power down, and a pattern chooses what a restart leaves.
mod calls;
mod making;
mod power;

ghost use Rattle.std.specs.Prelude.{◌≡◌};
ghost use Rattle.kinds.specs.Held.{room};

use crate::areas::Area;

#[derive(Drop)]
pub struct SettleLater {
    // What is shown, and what was shown at the last settle or restart.
    working: Area,
    settled: Area,
    // No enum with the count in the case of power up: the count that a cut write leaves is promised with power down too.
    power: bool,
    // How many bytes were written since the last restart, and past how many a write takes the power down.
    written: u64,
    cut: Option<u64>,
    pattern: Vec<u8>,
    ghost alike: { room working ≡ room settled },
}
