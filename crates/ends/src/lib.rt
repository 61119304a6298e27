// The two linked ends of a ring: a writing and a reading end, two kinds of record, so that a write cannot be asked of a reading
// end. Each sends its own counter and takes the other's. A call takes an end by value and hands back the end after it; the crate
// `lent` changes one that is lent.
#![tactic(auto)]

mod reading_end;
mod refusal;
mod writing_end;

pub use reading_end::{Got, ReadCounter, ReadingEnd};
pub use refusal::Refusal;
pub use writing_end::{WritingEnd, WrittenCounter, Wrote};
