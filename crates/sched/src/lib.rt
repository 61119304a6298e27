// The scheduler of a ring buffer: the port of rosenpass's sched.rs. It moves no bytes; it says which may be moved, and counts them.
#![tactic(auto)]

mod block;
mod chunk;
mod counter;
mod layout;
mod register;
mod schedule;
mod scheduler;
mod sound;

pub use block::{Bit, Block, BlockType, Blocks, BufferFillState, BufferLayout};
pub use chunk::{HEADER_LEN, body_fits};
pub use operations::{
    AtMostTwo, Counter, CumulativeOffset, CumulativeOffsets, Diff, Offset, OperationType,
    OutsideRange, OutsideRanges, Portion, Refusal, ScheduledOperation, ScheduledOperations, Values,
    portion_of,
};
pub use register::Move;
pub use schedule::{Next, Scheduled};
pub use scheduler::RingBufferScheduler;
pub use sound::Sound;
