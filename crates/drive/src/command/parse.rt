// From a line of a script to what it asks for.
use super::words::Words;
use super::{BlobPlan, Call, Command, Opening};
use crate::problem::Problem;
use std::alloc::Global;

// The command of a line; none where it is blank or a comment.
pub(crate) fn parse(heap: Global, line: &str) -> Result<Option<Command>, Problem> {
    if line.starts_with('#') {
        return Ok(None);
    }
    let mut words = Words::of(line);
    let Some(first) = words.first() else {
        return Ok(None);
    };
    let command = match first {
        "check" => Command::Check(words.word()?.parse()?),
        "blob" => Command::Blob(parse_blob(heap, &mut words)?),
        "bytes" => Command::Bytes(words.bytes(heap)?),
        _ => Command::Call(parse_call(heap, first, &mut words)?),
    };
    words.end()?;
    Ok(Some(command))
}

// Not FromStr, as the next: it takes the words that follow, and the heap.
fn parse_blob(heap: Global, words: &mut Words) -> Result<BlobPlan, Problem> {
    match words.word()? {
        "through" => Ok(BlobPlan::Through {
            ceiling: words.number()?,
        }),
        "later" => Ok(BlobPlan::Later {
            ceiling: words.number()?,
            cut: words.number_or("-")?,
            pattern: words.bytes(heap)?,
        }),
        _ => Err(Problem::UnknownWord),
    }
}

// The call of this word, with what stands behind it.
fn parse_call(heap: Global, first: &str, words: &mut Words) -> Result<Call, Problem> {
    match first {
        "open" => Ok(Call::Open(Opening {
            page_size: words.page_size()?,
            wish: words.number()? as usize,
            size: words.number_or("=")?,
        })),
        "append" => Ok(Call::Append(words.bytes(heap)?)),
        "sync" => Ok(Call::Sync),
        "truncate" => Ok(Call::Truncate(words.number()?)),
        "handover" => Ok(Call::Handover),
        "page" => Ok(Call::Page {
            page_size: words.page_size()?,
            page: words.number()?,
        }),
        "restart" => Ok(Call::Restart),
        _ => Err(Problem::UnknownCommand),
    }
}
