// What a scheduler is asked in and answers with: counters and offsets, operations and lists of them, and why it refuses. Plain values,
// each tested by the call that takes it.
#![tactic(auto)]

mod counter;
mod diff;
mod list;
mod operation;
mod portion;
mod refusal;
mod values;

pub use counter::{Counter, Offset};
pub use diff::Diff;
pub use list::{
    AtMostTwo, CumulativeOffset, CumulativeOffsets, OutsideRange, OutsideRanges,
    ScheduledOperations,
};
pub use operation::{OperationType, ScheduledOperation};
pub use portion::{Portion, portion_of};
pub use refusal::Refusal;
pub use values::Values;
