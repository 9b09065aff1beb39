// What a restart leaves of two strings, chosen length and byte by byte by the bits of a pattern.
ghost use Rattle.std.specs.Prelude.{◌≡◌, length, if◌then◌else◌, slice_index};
ghost use Rattle.kinds.specs.Held.{held, room};
ghost use Rattle.kinds.specs.Picks.{bit, picked_length, from_settled, Picked};

use super::Area;

// The bit at the place `i` of the row that the pattern stands for.
fn bit_at(pattern: &[u8], i: usize) -> bool
    ensures { result ≡ bit pattern.now i }
{
    if pattern.is_empty() {
        return false;
    }
    let byte = pattern[i / 8 % pattern.len()];
    (byte >> (i % 8)) % 2 == 1
}

// What a restart picks from: a pattern, the length of the working string, and the settled string.
#[derive(Clone, Copy)]
struct Pick<'a> {
    pattern: &'a [u8],
    working: usize,
    settled: &'a [u8],
}

impl Pick<'_> {
    // The length that a restart leaves.
    fn len(&self) -> usize
        ensures { result ≡ picked_length self.now.pattern.now self.now.working (length self.now.settled.now) }
    {
        let settled = self.settled.len();
        if bit_at(self.pattern, 0) {
            self.working.max(settled)
        } else {
            self.working.min(settled)
        }
    }

    // The byte that a restart leaves at the place `k`, where the working string has `working` if it has the place.
    fn byte(&self, k: usize, working: u8) -> u8
        ensures { result ≡ (if from_settled self.now.pattern.now self.now.working (length self.now.settled.now) k then slice_index self.now.settled.now k else working) }
    {
        if k < self.settled.len() && (self.working <= k || !bit_at(self.pattern, k + 1)) {
            self.settled[k]
        } else {
            working
        }
    }
}

impl Area {
    // Takes the string that a restart leaves of this one and the settled one.
    pub(crate) fn pick(&mut self, settled: &Area, pattern: &[u8])
        requires { room self.old ≡ room settled.now }
        ensures picked { Picked pattern.now (held self.old) (held settled.now) (held self.new) }
        ensures room { room self.new ≡ room self.old }
    {
        let pick = Pick {
            pattern,
            working: self.string.len(),
            settled: settled.bytes(),
        };
        self.string.resize(pick.len(), 0).unwrap();
        for (k, byte) in self.string.iter_mut().enumerate() {
            *byte = pick.byte(k, *byte);
        }
    }
}
