// What a call comes to, as it is printed.
ghost use Rattle.std.specs.Prelude.{◌≡◌};
ghost use Rattle.drive.specs.Turns.{refusal_answer};

use page::{ActiveChecksum, Slot};
use paged::{BlobCall, InputRefusal, Refusal, StateRefusal};
use std::fmt;

#[derive(Drop)]
pub enum Answer {
    // There is no writer for the call.
    NoWriter,
    Restarted,
    // The size of the writer's log after the call.
    Size(u64),
    Appended { offset: u64, size: u64 },
    // The slot of a page that is valid, and the bytes that it covers.
    Page(ActiveChecksum, Vec<u8>),
    Refused(InputRefusal),
    Stopped(StateRefusal),
}

// By hand: a derived one would not promise which answer it makes.
impl From<Refusal<()>> for Answer {
    ghost from_gives = { λ refusal a. a ≡ refusal_answer refusal };

    fn from(refusal: Refusal<()>) -> Answer {
        match refusal {
            Refusal::Input((), why) => Answer::Refused(why),
            Refusal::State(why) => Answer::Stopped(why),
        }
    }
}

impl fmt::Display for Answer {
    fn fmt<W: fmt::Write>(&self, f: &mut fmt::Formatter<W>) -> fmt::Result {
        match self {
            Answer::NoWriter => f.write_str("none"),
            Answer::Restarted => f.write_str("ok"),
            Answer::Size(size) => write!(f, "ok size {size}"),
            Answer::Appended { offset, size } => write!(f, "ok offset {offset} size {size}"),
            Answer::Page(ActiveChecksum { slot, len, check }, bytes) => {
                let slot = SlotNumber(*slot);
                let bytes = Hex(bytes.as_slice());
                write!(f, "ok slot {slot} len {len} check {check} bytes {bytes}")
            }
            Answer::Refused(why) => write!(f, "refused {}", why.number()),
            Answer::Stopped(why @ StateRefusal::CallFailed(call, offset)) => {
                write!(f, "refused {} {} {offset}", why.number(), CallWord(*call))
            }
            Answer::Stopped(why) => write!(f, "refused {}", why.number()),
        }
    }
}

// A slot as a number: First is 1.
#[derive(Clone, Copy)]
struct SlotNumber(Slot);

impl fmt::Display for SlotNumber {
    fn fmt<W: fmt::Write>(&self, f: &mut fmt::Formatter<W>) -> fmt::Result {
        f.write_str(match self.0 {
            Slot::First => "1",
            Slot::Second => "2",
        })
    }
}

// A call of the blob as a word.
#[derive(Clone, Copy)]
struct CallWord(BlobCall);

impl fmt::Display for CallWord {
    fn fmt<W: fmt::Write>(&self, f: &mut fmt::Formatter<W>) -> fmt::Result {
        f.write_str(match self.0 {
            BlobCall::Read => "read",
            BlobCall::Write => "write",
            BlobCall::Resize => "resize",
            BlobCall::Settle => "settle",
        })
    }
}

// Bytes as two digits each; a dash stands for none.
#[derive(Clone, Copy)]
struct Hex<'a>(&'a [u8]);

impl fmt::Display for Hex<'_> {
    fn fmt<W: fmt::Write>(&self, f: &mut fmt::Formatter<W>) -> fmt::Result {
        if self.0.is_empty() {
            return f.write_str("-");
        }
        for byte in self.0 {
            write!(f, "{byte:02x}")?;
        }
        Ok(())
    }
}
