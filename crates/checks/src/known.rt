// Numbers that are known from elsewhere, by which to measure the definitions.
ghost use Rattle.std.specs.Prelude.{◌≡◌, [], ◌∷◌, codes};
ghost use Rattle.checks.specs.Crc.{GeneratorIsPrinted, crc32c};
ghost use Rattle.checks.specs.Older.{older_sum};

#[derive(Clone, Copy, Debug)]
pub struct KnownNumbers {
    // CRC-32C of the text "123456789".
    pub digits: u32,
    // The older sums of the bytes 1 2, of 1 2 3, and of 1 2 3 4.
    pub two: u32,
    pub three: u32,
    pub four: u32,
}

// Each number is what its definition gives, and the generator of CRC-32C is the printed one.
pub fn known_numbers() -> KnownNumbers
    ensures generator { GeneratorIsPrinted }
    ensures digits { result.digits ≡ crc32c (codes "123456789") }
    ensures two { result.two ≡ older_sum (1 ∷ 2 ∷ []) }
    ensures three { result.three ≡ older_sum (1 ∷ 2 ∷ 3 ∷ []) }
    ensures four { result.four ≡ older_sum (1 ∷ 2 ∷ 3 ∷ 4 ∷ []) }
{
    KnownNumbers {
        digits: 0xe306_9283,
        two: 8,
        three: 20,
        four: 40,
    }
}
