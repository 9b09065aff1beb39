// The sum of the older units.
ghost use Rattle.std.specs.Prelude.{◌≡◌, ◌+◌, ◌*◌, ◌%◌, ◌^◌};
ghost use Rattle.checks.specs.Older.{older_sum};
ghost use Rattle.checks.specs.Weights;
ghost use Rattle.std.proofs.Common.{rules};

use crate::Check;

// The number of the place `i`, counted from 1, modulo 4,294,967,296.
fn place(i: usize) -> u32
    ensures { result ≡ (i + 1) % 2 ^ 32 }
{
    ((i % 0x1_0000_0000) as u32).wrapping_add(1)
}

// What the byte `b` at the place with the number `n` adds to the sum, modulo 4,294,967,296.
fn weight(n: u32, b: u8) -> u32
    ensures { result ≡ n * (b + 1) % 2 ^ 32 }
{
    n.wrapping_mul(b as u32 + 1)
}

#[derive(Clone, Copy, Debug)]
pub struct OlderSum;

impl Check for OlderSum {
    ghost sum = { λ _. older_sum };

    ghost fits = { Prim.search rules };

    ghost tells = { λ c. Weights.tells };

    fn checksum(&self, bytes: &[u8]) -> u32 {
        let mut total: u32 = 0;
        for (i, b) in bytes.iter().enumerate() {
            total = total.wrapping_add(weight(place(i), *b));
        }
        total
    }
}
