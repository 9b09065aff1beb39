// The commands of a script.
mod parse;
mod words;

use crate::any_check::AnyCheck;
pub(crate) use parse::parse;

// How a blob is made.
#[derive(Drop)]
pub enum BlobPlan {
    Through {
        ceiling: u64,
    },
    Later {
        ceiling: u64,
        // Past how many bytes a write takes the power down.
        cut: Option<u64>,
        // Chooses what a restart leaves.
        pattern: Vec<u8>,
    },
}

// How the blob is opened.
#[derive(Clone, Copy)]
pub struct Opening {
    pub page_size: u16,
    pub wish: usize,
    // The size told; none for the blob's own.
    pub size: Option<u64>,
}

// A call that gives a line of the output.
#[derive(Drop)]
pub enum Call {
    Open(Opening),
    Append(Vec<u8>),
    Sync,
    Truncate(u64),
    Handover,
    Page { page_size: u16, page: u64 },
    Restart,
}

impl Call {
    // The command's word. Not Display, which would print what stands behind it too.
    pub(crate) fn word(&self) -> &'static str {
        match self {
            Call::Open(_) => "open",
            Call::Append(_) => "append",
            Call::Sync => "sync",
            Call::Truncate(_) => "truncate",
            Call::Handover => "handover",
            Call::Page { .. } => "page",
            Call::Restart => "restart",
        }
    }
}

// What a line of a script asks for.
#[derive(Drop)]
pub enum Command {
    Check(AnyCheck),
    Blob(BlobPlan),
    Bytes(Vec<u8>),
    Call(Call),
}
