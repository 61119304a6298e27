// Which items may be moved next: one operation, or all in at most two. Nothing is counted. A type and a length stay two parameters: the
// exports and the Rust have them so.
ghost use Rattle.std.specs.Prelude.{◌≡◌};
ghost use Rattle.sched.specs.Scheduler.{portioned, both_of, next_in, schedule_in, next_of, schedule_of};

use crate::scheduler::RingBufferScheduler;
use crate::sound::Sound;
use operations::{
    AtMostTwo, Offset, OperationType, Portion, Refusal, ScheduledOperation, ScheduledOperations,
    portion_of,
};

// The next operation, and how many of the items asked are left over after it.
#[derive(Clone, Copy)]
pub struct Next {
    pub operation: Option<ScheduledOperation>,
    pub remainder: u64,
}

// All operations, and how many of the items asked are left over after them.
#[derive(Clone, Copy)]
pub struct Scheduled {
    pub operations: ScheduledOperations,
    pub remainder: u64,
}

impl RingBufferScheduler {
    pub fn schedule_next_contiguous_operation(
        self,
        op: OperationType,
        max_len: u64,
    ) -> Result<Next, Refusal>
        ensures { result ≡ next_of self op max_len }
    {
        Ok(self.sound()?.next_in(op, max_len))
    }

    pub fn schedule_next_read(self, dst_len: u64) -> Result<Next, Refusal>
        ensures { result ≡ next_of self OperationType.Read dst_len }
    {
        self.schedule_next_contiguous_operation(OperationType::Read, dst_len)
    }

    pub fn schedule_next_write(self, src_len: u64) -> Result<Next, Refusal>
        ensures { result ≡ next_of self OperationType.Write src_len }
    {
        self.schedule_next_contiguous_operation(OperationType::Write, src_len)
    }

    pub fn schedule_contiguous_operations(
        self,
        op: OperationType,
        max_len: u64,
    ) -> Result<Scheduled, Refusal>
        ensures { result ≡ schedule_of self op max_len }
    {
        Ok(self.sound()?.schedule_in(op, max_len))
    }

    pub fn schedule_reads(self, dst_len: u64) -> Result<Scheduled, Refusal>
        ensures { result ≡ schedule_of self OperationType.Read dst_len }
    {
        self.schedule_contiguous_operations(OperationType::Read, dst_len)
    }

    pub fn schedule_writes(self, src_len: u64) -> Result<Scheduled, Refusal>
        ensures { result ≡ schedule_of self OperationType.Write src_len }
    {
        self.schedule_contiguous_operations(OperationType::Write, src_len)
    }
}

// ---- of a sound scheduler

impl Sound {
    fn next_in(self, op: OperationType, max_len: u64) -> Next
        ensures { result ≡ next_in self op max_len }
    {
        let block = self.next_block_in(op);
        next_of(op, block.off, portion_of(max_len, block.len))
    }

    // What there is lies before the buffer's end and behind it. The second operation is asked for what the first left over. That asking
    // block after block gives the same is a law.
    fn schedule_in(self, op: OperationType, max_len: u64) -> Scheduled
        ensures { result ≡ schedule_in self op max_len }
    {
        let off = self.offset(op);
        let there = portion_of(self.greatest(op), self.scheduler.buf_len - off.0);
        let first = next_of(op, off, portion_of(max_len, there.len));
        let second = next_of(op, Offset(0), portion_of(first.remainder, there.remainder));
        Scheduled {
            operations: both_of(first.operation, second.operation),
            remainder: second.remainder,
        }
    }
}

// An operation of what is taken, none of 0 items, and what is left over.
fn next_of(typ: OperationType, off: Offset, portion: Portion) -> Next
    ensures { result ≡ portioned typ off portion }
{
    if portion.len == 0 {
        return Next {
            operation: None,
            remainder: portion.remainder,
        };
    }
    Next {
        operation: Some(ScheduledOperation::new(typ, off, portion.len)),
        remainder: portion.remainder,
    }
}

// There is no second without a first.
fn both_of(
    first: Option<ScheduledOperation>,
    second: Option<ScheduledOperation>,
) -> ScheduledOperations
    ensures { result ≡ both_of first second }
{
    match (first, second) {
        (Some(a), Some(b)) => AtMostTwo::Two(a, b),
        (Some(a), None) => AtMostTwo::One(a),
        (None, _) => AtMostTwo::None,
    }
}
