// A writer of either phase, and the calls on it that a script makes.
use crate::answer::Answer;
use blob::Blob;
use checks::Check;
use paged::Refusal;
use writer::{Recovery, Writer};

#[derive(Drop)]
pub enum AnyWriter {
    Recovering(Recovery),
    Appending(Writer),
}

// What a call on a writer of one phase came to, told of a writer of any.
pub(crate) fn of_any<W: Drop, F>(
    done: Result<(W, Answer), Refusal<W>>,
    phase: F,
) -> Result<(AnyWriter, Answer), Refusal<AnyWriter>>
where
    F: FnOnce(W) -> AnyWriter,
    requires { F.IsAlwaysCallable phase }
{
    match done {
        Ok((w, answer)) => Ok((phase(w), answer)),
        Err(Refusal::Input(w, why)) => Err(Refusal::Input(phase(w), why)),
        Err(Refusal::State(why)) => Err(Refusal::State(why)),
    }
}

// This and the next two take what the writer's own calls take. They are generic where a closure, which has one type, can't be.
pub(crate) fn append<Phase: Drop, B: Blob, C: Check>(
    w: Writer<Phase>,
    blob: &mut B,
    check: &C,
    tip: &mut [u8],
    page: &mut [u8],
    bytes: &[u8],
) -> Result<(Writer<Phase>, Answer), Refusal<Writer<Phase>>> {
    let (w, offset) = w.append(blob, check, tip, page, bytes)?;
    let size = w.size();
    Ok((w, Answer::Appended { offset, size }))
}

pub(crate) fn sync<Phase: Drop, B: Blob, C: Check>(
    w: Writer<Phase>,
    blob: &mut B,
    check: &C,
    tip: &mut [u8],
    page: &mut [u8],
) -> Result<(Writer<Phase>, Answer), Refusal<Writer<Phase>>> {
    let w = w.sync(blob, check, tip, page)?;
    let size = w.size();
    Ok((w, Answer::Size(size)))
}

// Only the recovering phase has this one.
pub(crate) fn truncate<B: Blob, C: Check>(
    w: Recovery,
    blob: &mut B,
    check: &C,
    tip: &mut [u8],
    page: &mut [u8],
    size: u64,
) -> Result<(Recovery, Answer), Refusal<Recovery>> {
    let w = w.truncate(blob, check, tip, page, size)?;
    let size = w.size();
    Ok((w, Answer::Size(size)))
}
