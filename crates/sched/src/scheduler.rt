// The scheduler's record, its tests, counters, offsets, data and space. Every public call tests the record that it is given anew, and
// then works on one that is known to be sound.
ghost use Rattle.std.specs.Prelude.{◌≡◌};
ghost use Rattle.sched.specs.Scheduler.{IsSound, record_of, scheduler_of, counted_of, sound_of, with_counter, with_counter_of, data_in, counter_in, offset_in, greatest_in, fill_state_in, buf_len_of, counter_answer_of, offset_answer_of, greatest_of, is_zero_from, is_positive_from, fill_state_of};

use crate::block::BufferFillState;
use crate::counter::{data_of, last_counter, offset_of};
use crate::sound::Sound;
use operations::{Counter, Offset, OperationType, Refusal};

#[derive(Clone, Copy, PartialEq, Eq)]
pub struct RingBufferScheduler {
    pub buf_len: u64,
    pub items_written: Counter,
    pub items_read: Counter,
    // The data between the counters. Who only hands on what calls have answered never has to work it out.
    pub fill: u64,
}

impl RingBufferScheduler {
    pub const MAX_BUF_LEN: u64 = 1 << 63;

    // ---- making one

    pub fn try_new(buf_len: u64) -> Result<RingBufferScheduler, Refusal>
        ensures { result ≡ sound_of (scheduler_of buf_len (record { 0 = 0 }) (record { 0 = 0 })) }
    {
        RingBufferScheduler::try_from_counters(buf_len, Counter(0), Counter(0))
    }

    #[tactic(auto, unfolding(crate::specs::Scheduler::sound_of))]
    pub fn try_from_counters(
        buf_len: u64,
        items_written: Counter,
        items_read: Counter,
    ) -> Result<RingBufferScheduler, Refusal>
        ensures { result ≡ sound_of (scheduler_of buf_len items_written items_read) }
    {
        let fill = counted(buf_len, items_written, items_read)?;
        Ok(RingBufferScheduler::from_numbers(buf_len, items_written, items_read, fill))
    }

    // A record of any four numbers, not tested yet, and one by one, as the exports have them: the one place that builds a record.
    pub fn from_numbers(
        buf_len: u64,
        items_written: Counter,
        items_read: Counter,
        fill: u64,
    ) -> RingBufferScheduler
        ensures { result ≡ record_of buf_len items_written items_read fill }
    {
        RingBufferScheduler {
            buf_len,
            items_written,
            items_read,
            fill,
        }
    }

    // The first of the refusals 1 to 5 and 20, or the scheduler.
    pub fn demand_soundness(self) -> Result<RingBufferScheduler, Refusal>
        ensures { result ≡ sound_of self }
    {
        Ok(self.sound()?.scheduler)
    }

    // The scheduler with this counter in the place of that of the operation.
    pub fn try_with_counter(
        self,
        op: OperationType,
        counter: Counter,
    ) -> Result<RingBufferScheduler, Refusal>
        ensures { result ≡ with_counter_of self op counter }
    {
        self.sound()?.with_counter_in(op, counter)
    }

    // ---- counters and offsets, each by a name, as the Rust and the exports have them: one call of the one that takes a type

    pub fn items_read(self) -> Result<Counter, Refusal>
        ensures { result ≡ counter_answer_of self OperationType.Read }
    {
        self.operation_counter(OperationType::Read)
    }

    pub fn items_written(self) -> Result<Counter, Refusal>
        ensures { result ≡ counter_answer_of self OperationType.Write }
    {
        self.operation_counter(OperationType::Write)
    }

    pub fn operation_counter(self, op: OperationType) -> Result<Counter, Refusal>
        ensures { result ≡ counter_answer_of self op }
    {
        Ok(self.sound()?.counter_in(op))
    }

    pub fn read_off(self) -> Result<Offset, Refusal>
        ensures { result ≡ offset_answer_of self OperationType.Read }
    {
        self.operation_offset(OperationType::Read)
    }

    pub fn write_off(self) -> Result<Offset, Refusal>
        ensures { result ≡ offset_answer_of self OperationType.Write }
    {
        self.operation_offset(OperationType::Write)
    }

    pub fn operation_offset(self, op: OperationType) -> Result<Offset, Refusal>
        ensures { result ≡ offset_answer_of self op }
    {
        Ok(self.sound()?.offset(op))
    }

    // ---- data and space

    pub fn buf_len(self) -> Result<u64, Refusal>
        ensures { result ≡ buf_len_of self }
    {
        Ok(self.sound()?.scheduler.buf_len)
    }

    // Refused, or false.
    pub fn is_zero_sized(self) -> Result<bool, Refusal>
        ensures { result ≡ is_zero_from (buf_len_of self) }
    {
        Ok(self.buf_len()? == 0)
    }

    pub fn data_avail(self) -> Result<u64, Refusal>
        ensures { result ≡ greatest_of self OperationType.Read }
    {
        self.max_operation_len(OperationType::Read)
    }

    pub fn space_avail(self) -> Result<u64, Refusal>
        ensures { result ≡ greatest_of self OperationType.Write }
    {
        self.max_operation_len(OperationType::Write)
    }

    pub fn max_operation_len(self, op: OperationType) -> Result<u64, Refusal>
        ensures { result ≡ greatest_of self op }
    {
        Ok(self.sound()?.greatest(op))
    }

    pub fn fill_state(self) -> Result<BufferFillState, Refusal>
        ensures { result ≡ fill_state_of self }
    {
        Ok(self.sound()?.fill_state_in())
    }

    pub fn is_empty(self) -> Result<bool, Refusal>
        ensures { result ≡ is_zero_from (greatest_of self OperationType.Read) }
    {
        Ok(self.data_avail()? == 0)
    }

    pub fn is_full(self) -> Result<bool, Refusal>
        ensures { result ≡ is_zero_from (greatest_of self OperationType.Write) }
    {
        Ok(self.space_avail()? == 0)
    }

    pub fn is_nonempty(self) -> Result<bool, Refusal>
        ensures { result ≡ is_positive_from (greatest_of self OperationType.Read) }
    {
        Ok(self.data_avail()? > 0)
    }

    pub fn is_nonfull(self) -> Result<bool, Refusal>
        ensures { result ≡ is_positive_from (greatest_of self OperationType.Write) }
    {
        Ok(self.space_avail()? > 0)
    }
}

// ---- of a sound scheduler

impl Sound {
    fn with_counter_in(
        self,
        op: OperationType,
        counter: Counter,
    ) -> Result<RingBufferScheduler, Refusal>
        ensures { result ≡ sound_of (with_counter self op counter) }
    {
        let (items_written, items_read) = match op {
            OperationType::Read => (self.scheduler.items_written, counter),
            OperationType::Write => (counter, self.scheduler.items_read),
        };
        RingBufferScheduler::try_from_counters(self.scheduler.buf_len, items_written, items_read)
    }

    fn counter_in(self, op: OperationType) -> Counter
        ensures { result ≡ counter_in self op }
    {
        match op {
            OperationType::Read => self.scheduler.items_read,
            OperationType::Write => self.scheduler.items_written,
        }
    }

    pub fn offset(self, op: OperationType) -> Offset
        ensures { result ≡ offset_in self op }
    {
        offset_of(self.counter_in(op), self.scheduler.buf_len)
    }

    pub(crate) fn data_in(self) -> u64
        ensures { result ≡ data_in self }
    {
        self.scheduler.fill
    }

    // The data of a read, the space of a write; and it tells a caller in another crate that the record is sound.
    pub fn greatest(self, op: OperationType) -> u64
        ensures { (result ≡ greatest_in self op) × IsSound self }
    {
        let s = self.scheduler;
        match op {
            OperationType::Read => s.fill,
            OperationType::Write => s.buf_len - s.fill,
        }
    }

    fn fill_state_in(self) -> BufferFillState
        ensures { result ≡ fill_state_in self }
    {
        let data = self.data_in();
        if data == 0 {
            return BufferFillState::Empty;
        }
        if data == self.scheduler.buf_len {
            return BufferFillState::Full;
        }
        BufferFillState::Partial
    }
}

// The first of the refusals 1 to 5, or the data between the counters. Three numbers and no record: one that is built has no fill yet.
pub(crate) fn counted(
    buf_len: u64,
    items_written: Counter,
    items_read: Counter,
) -> Result<u64, Refusal>
    ensures { result ≡ counted_of buf_len items_written items_read }
{
    if buf_len == 0 {
        return Err(Refusal::ZeroBufferLength);
    }
    if buf_len > RingBufferScheduler::MAX_BUF_LEN {
        return Err(Refusal::BufferTooLarge { buf_len });
    }
    let last = last_counter(buf_len);
    if items_written.0 > last {
        return Err(Refusal::ItemsWrittenOutOfBounds {
            buf_len,
            items_written,
        });
    }
    if items_read.0 > last {
        return Err(Refusal::ItemsReadOutofBounds {
            buf_len,
            items_read,
        });
    }
    let data = data_of(items_written, items_read, buf_len);
    if data > buf_len {
        return Err(Refusal::DataAvailOutOfBounds {
            buf_len,
            items_written,
            items_read,
        });
    }
    Ok(data)
}
