ghost use Rattle.std.specs.Prelude.{◌≡◌};
ghost use Rattle.paged.specs.Refusals.{input_number, state_number, answered};
ghost use Rattle.paged.specs.declared.refusal.Refusal.TheVariants.{Input, State};

use blob::Fault;

// Why a call was refused from what it was handed. Nothing was touched.
#[derive(Clone, Copy, PartialEq, Eq, Debug)]
pub enum InputRefusal {
    // The page size is 0.
    PageSizeZero,
    // The wish for the tip's capacity is above 1,048,576.
    CapacityTooLarge,
    // The tip buffer has fewer than capacity + page size - 1 bytes.
    TipBufferShort,
    // The page buffer has fewer than page size + 12 bytes.
    PageBufferShort,
    // The size told to an opening isn't the blob's.
    SizeMismatch,
    // The page read would begin above 18,446,744,073,709,551,615.
    PageOutOfRange,
}

impl InputRefusal {
    // The number in the list of refusals. A match, as for the other list, of which one case has values and so no number of its own.
    pub fn number(self) -> u8
        ensures { result ≡ input_number self }
    {
        match self {
            InputRefusal::PageSizeZero => 1,
            InputRefusal::CapacityTooLarge => 2,
            InputRefusal::TipBufferShort => 3,
            InputRefusal::PageBufferShort => 4,
            InputRefusal::SizeMismatch => 5,
            InputRefusal::PageOutOfRange => 6,
        }
    }
}

// A call of the blob that may fail or be refused.
#[derive(Clone, Copy, PartialEq, Eq, Debug)]
pub enum BlobCall {
    Read,
    Write,
    Resize,
    Settle,
}

impl BlobCall {
    // What this call of a blob answered; a fault becomes the refusal that names the call and its offset, which no `From` would know.
    pub fn answer<T>(self, offset: u64, answer: Result<T, Fault>) -> Result<T, StateRefusal>
        ensures { result ≡ answered self offset answer }
    {
        match answer {
            Ok(value) => Ok(value),
            Err(_) => Err(StateRefusal::CallFailed(self, offset)),
        }
    }
}

// Why a call was refused by the state that it found. The writer is used up, and blob calls already made stand.
#[derive(Clone, Copy, PartialEq, Eq, Debug)]
pub enum StateRefusal {
    // The write would end above the ceiling; none of it was written.
    CeilingPassed,
    // A call of the blob failed or was refused: which one, and its offset (of the whole write; the new length of a resize; 0 at a settle).
    CallFailed(BlobCall, u64),
    // The page is Rejected, or covers too few bytes.
    PageRejected,
    // The page ends past the blob.
    PagePastEnd,
}

impl StateRefusal {
    // The number in the list of refusals.
    pub fn number(self) -> u8
        ensures { result ≡ state_number self }
    {
        match self {
            StateRefusal::CeilingPassed => 7,
            StateRefusal::CallFailed(_, _) => 8,
            StateRefusal::PageRejected => 9,
            StateRefusal::PagePastEnd => 10,
        }
    }
}

// Why a call was refused. A refusal from the input gives back what was handed over: the writer, where there is one.
#[derive(Clone, Copy, Drop, PartialEq, Eq, Debug)]
pub enum Refusal<W> {
    Input(W, InputRefusal),
    State(StateRefusal),
}

// By hand, as the next: a derived one would not promise which refusal it makes.
impl From<InputRefusal> for Refusal<()> {
    ghost from_gives = { λ refusal r. r ≡ Input tt refusal };

    fn from(refusal: InputRefusal) -> Refusal<()> {
        Refusal::Input((), refusal)
    }
}

impl<W> From<StateRefusal> for Refusal<W> {
    ghost from_gives = { λ refusal r. r ≡ State refusal };

    fn from(refusal: StateRefusal) -> Refusal<W> {
        Refusal::State(refusal)
    }
}
