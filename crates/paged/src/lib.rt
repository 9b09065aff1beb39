// What the calls of a writer share: the two lists of refusals, the mark, and the page read.
#![tactic(auto)]

mod page_read;
mod refusal;
mod sync_state;

pub use page_read::{check_page_buffer, page_verdict, read_page};
pub use refusal::{BlobCall, InputRefusal, Refusal, StateRefusal};
pub use sync_state::{Event, SyncState};
