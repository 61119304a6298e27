// A scheduler as four numbers, and back, and what a test and a registering answer.
// An answer is a struct of C with fields of its own (the C interface): a `match` for each.
ghost use Rattle.std.specs.Prelude.{◌≡◌};
ghost use Rattle.flat.specs.Scheduler.{scheduler_at, flat_scheduler, flat_checked};

use crate::refusal::flat_refusal;
use crate::structs::{Scheduler, SchedulerAnswer};
use sched::{Counter, RingBufferScheduler};

pub fn scheduler(s: Scheduler) -> RingBufferScheduler
    ensures { result ≡ scheduler_at s }
{
    RingBufferScheduler::from_numbers(
        s.buf_len,
        Counter(s.items_written),
        Counter(s.items_read),
        s.fill,
    )
}

pub(crate) fn flat_scheduler(s: RingBufferScheduler) -> Scheduler
    ensures { result ≡ flat_scheduler s }
{
    Scheduler {
        buf_len: s.buf_len,
        items_written: s.items_written.0,
        items_read: s.items_read.0,
        fill: s.fill,
    }
}

// What a test and a registering answer.
pub fn flat_checked(a: Result<RingBufferScheduler, sched::Refusal>) -> SchedulerAnswer
    ensures { result ≡ flat_checked a }
{
    match a {
        Ok(s) => SchedulerAnswer {
            scheduler: flat_scheduler(s),
            ..Default::default()
        },
        Err(e) => SchedulerAnswer {
            refusal: flat_refusal(e),
            ..Default::default()
        },
    }
}
