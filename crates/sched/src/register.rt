// Registering what was moved, and scheduling and registering at once. A refused call hands no scheduler back.
ghost use Rattle.std.specs.Prelude.{◌≡◌, ◌≤◌, min};
ghost use Rattle.sched.specs.Scheduler.{greatest_in, advanced_in, register_in, register_list_in, register_of, register_list_of, move_in, move_of};

use crate::counter::later_of;
use crate::scheduler::RingBufferScheduler;
use crate::sound::Sound;
use operations::{
    AtMostTwo, Offset, OperationType, Portion, Refusal, ScheduledOperation, ScheduledOperations,
    portion_of,
};

// All that is asked and there, scheduled and registered at once: how many items from `off` on, which may go round the buffer's end, how
// many are left over, and the scheduler after them.
#[derive(Clone, Copy)]
pub struct Move {
    pub off: Offset,
    pub portion: Portion,
    pub scheduler: RingBufferScheduler,
}

impl RingBufferScheduler {
    // By names and parameters of the Rust and the exports.
    pub fn try_register_read(self, len: u64) -> Result<RingBufferScheduler, Refusal>
        ensures { result ≡ register_of self OperationType.Read len }
    {
        self.try_register_operation_manually(OperationType::Read, len)
    }

    pub fn try_register_write(self, len: u64) -> Result<RingBufferScheduler, Refusal>
        ensures { result ≡ register_of self OperationType.Write len }
    {
        self.try_register_operation_manually(OperationType::Write, len)
    }

    pub fn try_register_operation_manually(
        self,
        op: OperationType,
        len: u64,
    ) -> Result<RingBufferScheduler, Refusal>
        ensures { result ≡ register_of self op len }
    {
        Ok(self.sound()?.register_in(op, len)?.scheduler)
    }

    // By its type and length; the offset is not looked at.
    pub fn try_register_operation(
        self,
        op: ScheduledOperation,
    ) -> Result<RingBufferScheduler, Refusal>
        ensures { result ≡ register_of self op.typ op.len }
    {
        self.try_register_operation_manually(op.typ, op.len)
    }

    pub fn try_register_operations(
        self,
        list: ScheduledOperations,
    ) -> Result<RingBufferScheduler, Refusal>
        ensures { result ≡ register_list_of self list }
    {
        let s = self.sound()?;
        Ok(
            s.register_list_in(ScheduledOperations::try_new(list)?)?
                .scheduler,
        )
    }

    // ---- scheduling and registering at once

    // What `schedule_contiguous_operations` answers, uncut, and what `try_register_operations` of that answers, from one test of the
    // record. A refusal returns at once: that keeps the two answers apart in the machine code, and a copy fast (docs/SPEED.md).
    pub fn schedule_and_register(self, op: OperationType, max_len: u64) -> Result<Move, Refusal>
        ensures { result ≡ move_of self op max_len }
    {
        Ok(self.sound()?.move_in(op, max_len))
    }
}

// ---- of a sound scheduler

impl Sound {
    fn register_in(self, op: OperationType, len: u64) -> Result<Sound, Refusal>
        ensures { result ≡ register_in self op len }
    {
        let greatest = self.greatest(op);
        if len > greatest {
            return Err(Refusal::OperationTooLarge {
                op_type: op,
                op_len: len,
                max_len: greatest,
            });
        }
        Ok(self.advanced_in(op, len))
    }

    fn register_one(self, op: ScheduledOperation) -> Result<Sound, Refusal>
        ensures { result ≡ register_in self op.typ op.len }
    {
        self.register_in(op.typ, op.len)
    }

    fn register_list_in(self, list: ScheduledOperations) -> Result<Sound, Refusal>
        ensures { result ≡ register_list_in self list }
    {
        match list {
            AtMostTwo::None => Ok(self),
            AtMostTwo::One(a) => self.register_one(a),
            AtMostTwo::Two(a, b) => self.register_one(a)?.register_one(b),
        }
    }

    // As many as there are of n items, moved.
    pub fn moved(self, op: OperationType, n: u64) -> Sound
        ensures { result ≡ advanced_in self op (min n (greatest_in self op)) }
    {
        self.advanced_in(op, n.min(self.greatest(op)))
    }

    fn advanced_in(self, op: OperationType, n: u64) -> Sound
        requires { n ≤ greatest_in self op }
        ensures { result ≡ advanced_in self op n }
    {
        let s = self.scheduler;
        let scheduler = match op {
            OperationType::Read => {
                let later = later_of(s.items_read, s.buf_len, n);
                RingBufferScheduler::from_numbers(s.buf_len, s.items_written, later, s.fill - n)
            }
            OperationType::Write => {
                let later = later_of(s.items_written, s.buf_len, n);
                RingBufferScheduler::from_numbers(s.buf_len, later, s.items_read, s.fill + n)
            }
        };
        Sound { scheduler }
    }

    fn move_in(self, op: OperationType, max_len: u64) -> Move
        ensures { result ≡ move_in self op max_len }
    {
        let off = self.offset(op);
        let portion = portion_of(max_len, self.greatest(op));
        let scheduler = self.advanced_in(op, portion.len).scheduler;
        Move {
            off,
            portion,
            scheduler,
        }
    }
}
