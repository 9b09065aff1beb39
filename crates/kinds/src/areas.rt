// A string of bytes in memory that is taken once, for the whole ceiling: so no later change can fail.
mod calls;
mod guards;
mod picks;

ghost use Rattle.std.specs.Prelude.{◌^◌, ◌≤◌, length, vec_capacity};
ghost use Rattle.kinds.specs.Bytes.{AllBytes};

// The string, whose length never passes the ceiling.
#[derive(Drop)]
pub(crate) struct Area {
    string: Vec<u8>,
    // Beside the Vec's own capacity, of which its calls promise only that it never shrinks.
    ceiling: u64,
    ghost within: { length string.items ≤ ceiling },
    ghost taken: { ceiling ≤ vec_capacity string },
    ghost small: { ceiling ≤ 2 ^ 40 },
    ghost bytes: { AllBytes string.items },
}
