// A writer with its buffers, and the calls on it, over any blob and any check.
ghost use Rattle.std.specs.Prelude.{◌≡◌, IfOk, None, vec_len};
ghost use Rattle.drive.specs.declared.answer.Answer.TheVariants.{NoWriter};
ghost use Rattle.drive.specs.Rooms.{tip_room};
ghost use Rattle.drive.specs.Turns.{refusal_answer, writer_after, writer_after_opening};

use crate::answer::Answer;
use crate::any_writer::{AnyWriter, append, of_any, sync, truncate};
use crate::command::{Call, Opening};
use crate::problem::Problem;
use blob::Blob;
use checks::Check;
use page::{ActiveChecksum, Verdict};
use paged::{Refusal, page_verdict, read_page};
use std::alloc::{AllocError, Global};
use writer::{Recovery, tip_asked};

#[derive(Drop)]
pub struct Desk {
    heap: Global,
    writer: Option<AnyWriter>,
    tip: Vec<u8>,
    page: Vec<u8>,
}

impl Opening {
    // How many bytes the tip buffer has: as few as the opening takes, and one where it is refused anyway.
    fn tip_room(&self) -> usize
        ensures { result ≡ tip_room self.now.page_size self.now.wish }
    {
        tip_asked(self.page_size, self.wish).unwrap_or(1)
    }
}

fn zeros(heap: Global, n: usize) -> Result<Vec<u8>, AllocError>
    ensures { IfOk result (λ v. vec_len v ≡ n) }
{
    vec![in heap; 0; n]
}

impl Desk {
    pub(crate) fn new(heap: Global) -> Desk {
        Desk {
            heap,
            writer: None,
            tip: Vec::new(heap),
            page: Vec::new(heap),
        }
    }

    // Ends the writer.
    pub(crate) fn leave(&mut self)
        ensures { self.new.writer ≡ None }
    {
        self.writer = None;
    }

    // Carries out a call.
    pub(crate) fn call<B: Blob, C: Check>(
        &mut self,
        blob: &mut B,
        check: &C,
        call: &Call,
    ) -> Result<Answer, Problem> {
        // Which call comes is read from the script, so it is a value and no closure.
        match call {
            Call::Open(opening) => self.open(blob, check, opening),
            Call::Append(bytes) => Ok(self.append(blob, check, bytes.as_slice())),
            Call::Sync => Ok(self.sync(blob, check)),
            Call::Truncate(size) => Ok(self.truncate(blob, check, *size)),
            Call::Handover => Ok(self.hand_over()),
            Call::Page { page_size, page } => read(self.heap, blob, check, *page_size, *page),
            Call::Restart => {
                blob.restart();
                self.leave();
                Ok(Answer::Restarted)
            }
        }
    }

    // Opens the blob, with buffers that are just long enough. Refused from the input it leaves the writer that there is.
    fn open<B: Blob, C: Check>(
        &mut self,
        blob: &mut B,
        check: &C,
        opening: &Opening,
    ) -> Result<Answer, Problem> {
        let page_size = opening.page_size;
        let told = opening.size.unwrap_or(blob.size());
        let mut tip = zeros(self.heap, opening.tip_room())?;
        let mut page = zeros(self.heap, page_size as usize + 12)?;
        match Recovery::open(
            blob,
            check,
            page_size,
            opening.wish,
            told,
            &mut tip,
            &mut page,
        ) {
            Ok(w) => Ok(self.seat(w, tip, page)),
            Err(refusal) => Ok(self.not_opened(refusal)),
        }
    }

    // Goes on with a new writer and its buffers.
    fn seat(&mut self, w: Recovery, tip: Vec<u8>, page: Vec<u8>) -> Answer {
        let size = w.size();
        self.writer = Some(AnyWriter::Recovering(w));
        self.tip = tip;
        self.page = page;
        Answer::Size(size)
    }

    // An opening was refused. By the state, that ends the writer.
    fn not_opened(&mut self, refusal: Refusal<()>) -> Answer
        ensures writer { self.new.writer ≡ writer_after_opening refusal self.old.writer }
        ensures answer { result ≡ refusal_answer refusal }
    {
        if let Refusal::State(_) = refusal {
            self.leave();
        }
        refusal.into()
    }

    fn append<B: Blob, C: Check>(&mut self, blob: &mut B, check: &C, bytes: &[u8]) -> Answer
        ensures { self.old.writer ≡ None → result ≡ NoWriter }
    {
        self.by_writer(|w, tip, page| match w {
            AnyWriter::Recovering(w) => of_any(
                append(w, blob, check, tip, page, bytes),
                AnyWriter::Recovering,
            ),
            AnyWriter::Appending(w) => of_any(
                append(w, blob, check, tip, page, bytes),
                AnyWriter::Appending,
            ),
        })
    }

    fn sync<B: Blob, C: Check>(&mut self, blob: &mut B, check: &C) -> Answer
        ensures { self.old.writer ≡ None → result ≡ NoWriter }
    {
        self.by_writer(|w, tip, page| match w {
            AnyWriter::Recovering(w) => of_any(
                sync(w, blob, check, tip, page),
                AnyWriter::Recovering,
            ),
            AnyWriter::Appending(w) => of_any(
                sync(w, blob, check, tip, page),
                AnyWriter::Appending,
            ),
        })
    }

    fn truncate<B: Blob, C: Check>(&mut self, blob: &mut B, check: &C, size: u64) -> Answer
        ensures { self.old.writer ≡ None → result ≡ NoWriter }
    {
        self.by_writer(|w, tip, page| match w {
            AnyWriter::Recovering(w) => of_any(
                truncate(w, blob, check, tip, page, size),
                AnyWriter::Recovering,
            ),
            w => Ok((w, Answer::NoWriter)),
        })
    }

    fn hand_over(&mut self) -> Answer
        ensures { self.old.writer ≡ None → result ≡ NoWriter }
    {
        self.by_writer(|w, _, _| match w {
            AnyWriter::Recovering(w) => {
                let w = w.hand_over();
                let size = w.size();
                Ok((AnyWriter::Appending(w), Answer::Size(size)))
            }
            w => Ok((w, Answer::NoWriter)),
        })
    }

    // Hands the writer and its buffers to a call, and keeps the writer that the call gives back. Without a writer nothing is called.
    fn by_writer<F>(&mut self, call: F) -> Answer
    where
        F: FnOnce(
            AnyWriter,
            &mut [u8],
            &mut [u8],
        ) -> Result<(AnyWriter, Answer), Refusal<AnyWriter>>,
        requires { F.IsAlwaysCallable call }
        ensures { self.old.writer ≡ None → result ≡ NoWriter }
    {
        let Some(w) = self.writer.take() else {
            return Answer::NoWriter;
        };
        match call(w, &mut self.tip, &mut self.page) {
            Ok((w, answer)) => {
                self.writer = Some(w);
                answer
            }
            Err(refusal) => self.refused(refusal),
        }
    }

    // A call on the writer was refused. From the input, that gives the writer back; by the state, that ends it.
    fn refused(&mut self, refusal: Refusal<AnyWriter>) -> Answer
        ensures writer { self.new.writer ≡ writer_after refusal }
        ensures answer { result ≡ refusal_answer refusal }
    {
        match refusal {
            Refusal::Input(w, why) => {
                self.writer = Some(w);
                Answer::Refused(why)
            }
            Refusal::State(why) => {
                self.writer = None;
                Answer::Stopped(why)
            }
        }
    }
}

// Reads a page into a buffer that is just long enough.
fn read<B: Blob, C: Check>(
    heap: Global,
    blob: &mut B,
    check: &C,
    page_size: u16,
    page: u64,
) -> Result<Answer, Problem> {
    let mut buf = zeros(heap, page_size as usize + 12)?;
    match read_page(blob, check, page_size, page, &mut buf) {
        Ok(active) => covered(heap, check, page_size, active, buf.as_slice()),
        Err(refusal) => Ok(refusal.into()),
    }
}

// The slot that is valid, with the bytes that it covers of the page at the front of the buffer.
fn covered<C: Check>(
    heap: Global,
    check: &C,
    page_size: u16,
    active: ActiveChecksum,
    buf: &[u8],
) -> Result<Answer, Problem> {
    match page_verdict(check, page_size, buf) {
        Ok(Verdict::Partial(_, part) | Verdict::Full(_, part)) => Ok(Answer::Page(
            active,
            part.to_vec(heap)?,
        )),
        Ok(Verdict::Rejected) => Ok(Answer::Page(active, Vec::new(heap))),
        Err(refusal) => Ok(Answer::Refused(refusal)),
    }
}
