// The isolator is turned at every byte of a shift, and the shift then goes on.
ghost use Rattle.std.specs.Prelude.{◌≡◌, [], IfOk};
ghost use Rattle.kinds.specs.Later.{later};
ghost use Rattle.kinds.specs.Cuts.{Planned};
ghost use Rattle.isolator.specs.Turns.{Shows, WentOn, CameBack, Turned, TurnedEverywhere};

use crate::error::TrialError;
use crate::trial::{Count, Outcome, Progress};
use crate::{session, trial};
use blob::Blob;
use kinds::SettleLater;
use lifts::{Lift, LogError};
use std::alloc::Global;

// How many bytes the log may grow to.
const CEILING: u64 = 1024;

// The isolator is turned at most so many times.
const TURNS: u64 = 1_000_000;

// An empty blob whose power goes down at the cut, and whose restart goes by the pattern.
pub(crate) fn empty_blob(
    heap: Global,
    cut: Option<u64>,
    pattern: &[u8],
) -> Result<SettleLater, LogError>
    ensures shown { IfOk result (λ b. (later b).shown ≡ []) }
    ensures plan { IfOk result (λ b. Planned b cut pattern.now) }
{
    Ok(SettleLater::new(heap, CEILING, cut, pattern)?)
}

// The same bytes in a blob whose power stays up.
fn steady_blob(heap: Global, bytes: &[u8]) -> Result<SettleLater, LogError>
    ensures { IfOk result (λ b. (later b).shown ≡ bytes.now) }
{
    Ok(SettleLater::with_bytes(heap, CEILING, None, &[], bytes)?)
}

// Opens the log of a blob, and reads its lifts back from the pages.
fn reopen<B: Blob>(heap: Global, blob: &mut B) -> Result<Vec<Lift>, LogError>
    ensures { IfOk result (λ ls. Shows (B.meaning blob.old) ls.items (B.meaning blob.new)) }
{
    let _ = session::open(blob)?;
    Ok(session::read_back(heap, blob)?.lifts)
}

// Records lifts behind those that stand in a log of these bytes, and judges it as the log of the whole shift.
fn go_on(heap: Global, bytes: &[u8], rest: &[Lift], shift: &[Lift]) -> Result<Outcome, LogError>
    ensures { IfOk result (λ o. WentOn bytes.now rest.now shift.now o) }
{
    let mut blob = steady_blob(heap, bytes)?;
    let _ = trial::record(&mut blob, rest)?;
    let lifts = reopen(heap, &mut blob)?;
    Ok(trial::judge(shift, &lifts, Progress::whole(shift)))
}

// Restarts the blob and judges the log. Then the rest of the shift is recorded, and the log must show the whole shift.
fn come_back(
    heap: Global,
    blob: &mut SettleLater,
    shift: &[Lift],
    progress: Progress,
) -> Result<Outcome, LogError>
    ensures { IfOk result (λ o. CameBack (later blob.old) shift.now progress o) }
{
    blob.restart();
    let lifts = reopen(heap, blob)?;
    let outcome = trial::judge(shift, &lifts, progress);
    let from = lifts.len().min(shift.len());
    let whole = go_on(heap, blob.shown(), &shift[from..], shift)?;
    Ok(outcome.worse(whole))
}

// The outcome of a shift whose power goes down at the cut; none where the shift ends before the cut.
fn turn_at(
    heap: Global,
    cut: u64,
    pattern: &[u8],
    shift: &[Lift],
) -> Result<Option<Outcome>, LogError>
    ensures { IfOk result (λ o. Turned cut pattern.now shift.now o) }
{
    let mut blob = empty_blob(heap, Some(cut), pattern)?;
    let progress = trial::record(&mut blob, shift)?;
    if progress.synced == shift.len() {
        return Ok(None);
    }
    Ok(Some(come_back(heap, &mut blob, shift, progress)?))
}

// Turns the isolator at the first byte of the shift, then at the second, and so on until the shift ends before the cut.
pub(crate) fn turn_everywhere(
    heap: Global,
    pattern: &[u8],
    shift: &[Lift],
) -> Result<Count, TrialError>
    ensures { IfOk result (λ c. TurnedEverywhere pattern.now shift.now c) }
{
    let mut count = Count::default();
    // The cuts are numbers of bytes, so a range is what there is to go over.
    for cut in 0..TURNS {
        match turn_at(heap, cut, pattern, shift)? {
            Some(outcome) => count = count.with(outcome),
            None => return Ok(count),
        }
    }
    Err(TrialError::NoEnd)
}
