// Counters and offsets are kept apart, so that one never stands for the other.

// How many items were read or written, modulo twice the buffer's length.
#[derive(Clone, Copy, PartialEq, Eq)]
pub struct Counter(pub u64);

// A place in the buffer.
#[derive(Clone, Copy, PartialEq, Eq)]
pub struct Offset(pub u64);
