// A session: the blob, the check and the writer that the lines of a script go by.
ghost use Rattle.std.specs.Prelude.{◌≡◌, length};
ghost use Rattle.checks.specs.Crc.{crc32c};

use crate::answer::Answer;
use crate::any_check::AnyCheck;
use crate::command::{BlobPlan, Call};
use crate::desk::Desk;
use crate::problem::Problem;
use checks::{Check, Crc32c};
use kinds::{MakeError, SettleLater, WriteThrough};
use std::alloc::Global;
use std::fmt;

// The blob, of the kind that it is.
#[derive(Drop)]
enum AnyBlob {
    Through(WriteThrough),
    Later(SettleLater),
}

#[derive(Drop)]
pub struct Session {
    heap: Global,
    check: AnyCheck,
    blob: Option<AnyBlob>,
    // How the blob was made, while no other line came.
    plan: Option<BlobPlan>,
    desk: Desk,
}

// What the blob shows: its length and the CRC-32C of its bytes.
#[derive(Clone, Copy)]
pub struct Look {
    len: usize,
    crc: u32,
}

impl fmt::Display for Look {
    fn fmt<W: fmt::Write>(&self, f: &mut fmt::Formatter<W>) -> fmt::Result {
        write!(f, "{} {:08x}", self.len, self.crc)
    }
}

// A blob that shows these bytes, settled.
fn make(heap: Global, plan: &BlobPlan, bytes: &[u8]) -> Result<AnyBlob, MakeError> {
    match plan {
        BlobPlan::Through { ceiling } => Ok(AnyBlob::Through(WriteThrough::with_bytes(
            heap, *ceiling, bytes,
        )?)),
        BlobPlan::Later {
            ceiling,
            cut,
            pattern,
        } => Ok(AnyBlob::Later(SettleLater::with_bytes(
            heap,
            *ceiling,
            *cut,
            pattern.as_slice(),
            bytes,
        )?)),
    }
}

fn look_at(bytes: &[u8]) -> Look
    ensures len { result.len ≡ length bytes.now }
    ensures crc { result.crc ≡ crc32c bytes.now }
{
    Look {
        len: bytes.len(),
        crc: Crc32c.checksum(bytes),
    }
}

impl Session {
    pub(crate) fn new(heap: Global) -> Session {
        Session {
            heap,
            check: AnyCheck::Crc,
            blob: None,
            plan: None,
            desk: Desk::new(heap),
        }
    }

    // Goes by another check from now on.
    pub(crate) fn choose(&mut self, check: AnyCheck) {
        self.plan = None;
        self.check = check;
    }

    // Starts anew, with an empty blob and no writer.
    pub(crate) fn start(&mut self, plan: BlobPlan) -> Result<(), Problem> {
        self.blob = Some(make(self.heap, &plan, &[])?);
        self.plan = Some(plan);
        self.desk.leave();
        Ok(())
    }

    // Gives the new blob its contents.
    pub(crate) fn fill(&mut self, bytes: &[u8]) -> Result<(), Problem> {
        let plan = self.plan.take().ok_or(Problem::BlobNotNew)?;
        self.blob = Some(make(self.heap, &plan, bytes)?);
        Ok(())
    }

    pub(crate) fn call(&mut self, call: &Call) -> Result<Answer, Problem> {
        self.plan = None;
        // One arm for each kind: an `impl Blob for AnyBlob` would have them in each of its seven functions.
        match self.blob.as_mut().ok_or(Problem::NoBlob)? {
            AnyBlob::Through(blob) => self.desk.call(blob, &self.check, call),
            AnyBlob::Later(blob) => self.desk.call(blob, &self.check, call),
        }
    }

    // What the blob shows, with power or without.
    pub(crate) fn look(&self) -> Look {
        match &self.blob {
            None => look_at(&[]),
            Some(AnyBlob::Through(blob)) => look_at(blob.shown()),
            Some(AnyBlob::Later(blob)) => look_at(blob.shown()),
        }
    }
}
