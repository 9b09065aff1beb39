// What is done with an area: once it is made, none of it can fail.
ghost use Rattle.std.specs.Prelude.{◌≡◌, ◌+◌, ◌^◌, ◌≤◌, [], length, vec_capacity, IfOk};
ghost use Rattle.blob.specs.Calls.{overwritten, resized, stretch};
ghost use Rattle.kinds.specs.Held.{held, room};
ghost use Rattle.kinds.specs.Making.{Made};

use super::Area;
use crate::MakeError;
use std::alloc::{AllocError, Global};

const HIGHEST_CEILING: u64 = 1 << 40;

impl Area {
    // An empty string in memory of `ceiling` bytes, no fewer and no more.
    fn empty(heap: Global, ceiling: u64) -> Result<Area, AllocError>
        requires { ceiling ≤ 2 ^ 40 }
        ensures { IfOk result (λ a. (held a ≡ []) × (room a ≡ ceiling) × (vec_capacity a.string ≡ ceiling)) }
    {
        let string = Vec::with_capacity(heap, ceiling as usize)?;
        Ok(Area { string, ceiling })
    }

    // An area with room for `ceiling` bytes that holds `bytes`.
    pub(crate) fn with_bytes(heap: Global, ceiling: u64, bytes: &[u8]) -> Result<Area, MakeError>
        ensures { Made ceiling bytes.now (λ a. (held a ≡ bytes.now) × (room a ≡ ceiling)) result }
    {
        if ceiling > HIGHEST_CEILING {
            return Err(MakeError::CeilingTooHigh);
        }
        if bytes.len() as u64 > ceiling {
            return Err(MakeError::TooLong);
        }
        let mut area = Area::empty(heap, ceiling)?;
        area.write(0, bytes);
        Ok(area)
    }

    // The length of the string.
    pub(crate) fn len(&self) -> u64
        ensures { result ≡ length (held self.now) }
    {
        self.string.len() as u64
    }

    // What the length never passes.
    pub(crate) fn ceiling(&self) -> u64
        ensures { result ≡ room self.now }
    {
        self.ceiling
    }

    // The string.
    pub(crate) fn bytes(&self) -> &[u8]
        ensures { result.now ≡ held self.now }
    {
        &self.string
    }

    // Fills `buf` with the bytes from `at` on.
    pub(crate) fn read(&self, at: u64, buf: &mut [u8])
        requires { at + length buf.old ≤ length (held self.now) }
        ensures { buf.new ≡ stretch (held self.now) at (length buf.old) }
    {
        let from = at as usize;
        let end = from + buf.len();
        buf.copy_from_slice(&self.string[from..end]);
    }

    // Writes `bytes` over the string from `at` on, and lengthens it where they pass its end.
    pub(crate) fn write(&mut self, at: u64, bytes: &[u8])
        requires { (at ≤ length (held self.old)) × (at + length bytes.now ≤ room self.old) }
        ensures held { held self.new ≡ overwritten (held self.old) at bytes.now }
        ensures room { room self.new ≡ room self.old }
    {
        let from = at as usize;
        let over = self.string.len() - from;
        if bytes.len() <= over {
            self.string[from..from + bytes.len()].copy_from_slice(bytes);
            return;
        }
        self.string[from..].copy_from_slice(&bytes[..over]);
        self.string.extend_from_slice(&bytes[over..]).unwrap();
    }

    // Cuts the string to `len` bytes, or lengthens it with zeros.
    pub(crate) fn resize(&mut self, len: u64)
        requires { len ≤ room self.old }
        ensures held { held self.new ≡ resized (held self.old) len }
        ensures room { room self.new ≡ room self.old }
    {
        self.string.resize(len as usize, 0).unwrap();
    }

    // Takes over the string of an area with the same ceiling.
    pub(crate) fn copy_from(&mut self, other: &Area)
        requires { room self.old ≡ room other.now }
        ensures held { held self.new ≡ held other.now }
        ensures room { room self.new ≡ room self.old }
    {
        self.string.clear();
        self.string.extend_from_slice(&other.string).unwrap();
    }
}
