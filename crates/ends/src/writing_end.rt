// The writing end.
ghost use Rattle.std.specs.Prelude.{◌≡◌};
ghost use Rattle.sched.specs.Scheduler.{scheduler_of};
ghost use Rattle.ends.specs.Ends.{writing_end_of, wrote_left, wrote_of, written_sent_of, take_read_of};

use crate::reading_end::ReadCounter;
use crate::refusal::Refusal;
use copies::Copied;
use sched::{Counter, OperationType, Portion, RingBufferScheduler};

// How many bytes this end has written, modulo twice the ring's length: a type beside ReadCounter, so that no end takes its own.
#[derive(Clone, Copy)]
pub struct WrittenCounter(pub Counter);

// Beside ReadingEnd, no `End<R>`: the literal { scheduler } is public, and `writing_end` of specs/Ends builds it; neither gives a role.
#[derive(Clone, Copy)]
pub struct WritingEnd {
    pub scheduler: RingBufferScheduler,
}

// The end after a copy, how many bytes it moved and how many were left over; beside Got as the ends are.
#[derive(Clone, Copy)]
pub struct Wrote {
    pub end: WritingEnd,
    pub portion: Portion,
}

impl WritingEnd {
    pub fn new(buf_len: u64) -> Result<WritingEnd, Refusal>
        ensures { result ≡ writing_end_of (scheduler_of buf_len (record { 0 = 0 }) (record { 0 = 0 })) }
    {
        WritingEnd::from_counters(buf_len, Counter(0), Counter(0))
    }

    pub fn from_counters(
        buf_len: u64,
        items_written: Counter,
        items_read: Counter,
    ) -> Result<WritingEnd, Refusal>
        ensures { result ≡ writing_end_of (scheduler_of buf_len items_written items_read) }
    {
        let scheduler = RingBufferScheduler::try_from_counters(buf_len, items_written, items_read)?;
        Ok(WritingEnd { scheduler })
    }

    pub fn from_scheduler(scheduler: RingBufferScheduler) -> Result<WritingEnd, Refusal>
        ensures { result ≡ writing_end_of scheduler }
    {
        Ok(WritingEnd {
            scheduler: scheduler.demand_soundness()?,
        })
    }

    // Moves the first bytes of `src` into the ring, as many as this end has space for.
    pub fn write(self, ring: &mut [u8], src: &[u8]) -> Result<Wrote, Refusal>
        ensures { wrote_left result ring.new ≡ wrote_of self ring.old src.now }
    {
        let Copied { scheduler, portion } = copies::write(self.scheduler, ring, src)?;
        let end = WritingEnd { scheduler };
        Ok(Wrote { end, portion })
    }

    // Its own counter.
    pub fn send(self) -> Result<WrittenCounter, Refusal>
        ensures { result ≡ written_sent_of self }
    {
        Ok(WrittenCounter(self.scheduler.items_written()?))
    }

    // The other end's counter takes the place of the one that this end holds: its own record is tested first, then the
    // new one, and then whether the space would shrink: more held is less space.
    #[tactic(auto, using(crate::proofs::Taking::space_laws))]
    pub fn take(self, counter: ReadCounter) -> Result<WritingEnd, Refusal>
        ensures { result ≡ take_read_of self counter }
    {
        let scheduler = self
            .scheduler
            .try_with_counter(OperationType::Read, counter.0)?;
        if scheduler.fill > self.scheduler.fill {
            return Err(Refusal::RanBack);
        }
        Ok(WritingEnd { scheduler })
    }
}
