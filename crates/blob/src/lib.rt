// A blob: bytes that can be read, written, resized and settled, on a part whose power may fail in any call.
#![tactic(auto)]

ghost use Rattle.std.specs.Prelude.{◌≡◌, length};
ghost use Rattle.blob.specs.Value.{BlobValue, Sound};
ghost use Rattle.blob.specs.Calls.{Read, Wrote, Resized, Settling, Restarted};

// Why a call of a blob was not carried out.
#[derive(Clone, Copy, PartialEq, Eq, Debug)]
pub enum Fault {
    // The call asks for what the blob does not have room for; nothing changed.
    Refused,
    // Power is down, or went down in the call.
    Failed,
}

// Each kind of blob says by `meaning` what it is, and its functions promise how they change that.
pub trait Blob {
    ghost meaning: { Self → BlobValue };

    ghost sound: { (b : Self) → Sound (meaning b) };

    // The number of shown bytes.
    fn size(&self) -> u64
        ensures { result ≡ length (meaning self.now).shown };

    // The number that the size never passes.
    fn ceiling(&self) -> u64
        ensures { result ≡ (meaning self.now).ceiling };

    // Fills `buf` with the bytes from `offset` on. A failed read takes the power down, so `self` is lent to be changed.
    fn read(&mut self, offset: u64, buf: &mut [u8]) -> Result<(), Fault>
        ensures { Read (meaning self.old) offset buf.old buf.new (meaning self.new) result };

    // Puts `bytes` at `offset`, and lengthens the blob where they pass its end.
    fn write(&mut self, offset: u64, bytes: &[u8]) -> Result<(), Fault>
        ensures { Wrote (meaning self.old) offset bytes.now (meaning self.new) result };

    // Cuts the blob to `len` bytes, or lengthens it with zeros.
    fn resize(&mut self, len: u64) -> Result<(), Fault>
        ensures { Resized (meaning self.old) len (meaning self.new) result };

    // Makes all shown bytes such that a power cut leaves them.
    fn settle(&mut self) -> Result<(), Fault>
        ensures { Settling (meaning self.old) (meaning self.new) result };

    // Power comes back.
    fn restart(&mut self)
        ensures { Restarted (meaning self.old) (meaning self.new) };
}
