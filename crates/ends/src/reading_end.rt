// The reading end.
ghost use Rattle.std.specs.Prelude.{◌≡◌};
ghost use Rattle.sched.specs.Scheduler.{scheduler_of};
ghost use Rattle.ends.specs.Ends.{reading_end_of, got_left, got_of, read_sent_of, take_written_of};

use crate::refusal::Refusal;
use crate::writing_end::WrittenCounter;
use copies::Copied;
use sched::{Counter, OperationType, Portion, RingBufferScheduler};

// How many bytes this end has read, modulo twice the ring's length: a type beside WrittenCounter, so that no end takes its own.
#[derive(Clone, Copy)]
pub struct ReadCounter(pub Counter);

// Beside WritingEnd, no `End<R>`: the literal { scheduler } is public, and `reading_end` of specs/Ends builds it; neither gives a role.
#[derive(Clone, Copy)]
pub struct ReadingEnd {
    pub scheduler: RingBufferScheduler,
}

// The end after a copy, how many bytes it moved and how many were left over; beside Wrote as the ends are.
#[derive(Clone, Copy)]
pub struct Got {
    pub end: ReadingEnd,
    pub portion: Portion,
}

impl ReadingEnd {
    pub fn new(buf_len: u64) -> Result<ReadingEnd, Refusal>
        ensures { result ≡ reading_end_of (scheduler_of buf_len (record { 0 = 0 }) (record { 0 = 0 })) }
    {
        ReadingEnd::from_counters(buf_len, Counter(0), Counter(0))
    }

    pub fn from_counters(
        buf_len: u64,
        items_written: Counter,
        items_read: Counter,
    ) -> Result<ReadingEnd, Refusal>
        ensures { result ≡ reading_end_of (scheduler_of buf_len items_written items_read) }
    {
        let scheduler = RingBufferScheduler::try_from_counters(buf_len, items_written, items_read)?;
        Ok(ReadingEnd { scheduler })
    }

    pub fn from_scheduler(scheduler: RingBufferScheduler) -> Result<ReadingEnd, Refusal>
        ensures { result ≡ reading_end_of scheduler }
    {
        Ok(ReadingEnd {
            scheduler: scheduler.demand_soundness()?,
        })
    }

    // Moves bytes of the ring to the front of `dst`, as many as this end has data and fit.
    pub fn read(self, ring: &[u8], dst: &mut [u8]) -> Result<Got, Refusal>
        ensures { got_left result dst.new ≡ got_of self ring.now dst.old }
    {
        let Copied { scheduler, portion } = copies::read(self.scheduler, ring, dst)?;
        let end = ReadingEnd { scheduler };
        Ok(Got { end, portion })
    }

    // Its own counter.
    pub fn send(self) -> Result<ReadCounter, Refusal>
        ensures { result ≡ read_sent_of self }
    {
        Ok(ReadCounter(self.scheduler.items_read()?))
    }

    // The other end's counter takes the place of the one that this end holds: its own record is tested first, then the
    // new one, and then whether the data would shrink.
    #[tactic(auto, using(crate::proofs::Taking::data_laws))]
    pub fn take(self, counter: WrittenCounter) -> Result<ReadingEnd, Refusal>
        ensures { result ≡ take_written_of self counter }
    {
        let scheduler = self
            .scheduler
            .try_with_counter(OperationType::Write, counter.0)?;
        if scheduler.fill < self.scheduler.fill {
            return Err(Refusal::RanBack);
        }
        Ok(ReadingEnd { scheduler })
    }
}
