// The calls of the two ends that move no byte, each told in one flat way.
use ends::{ReadCounter, ReadingEnd, WritingEnd, WrittenCounter};
use sched::{Counter, RingBufferScheduler};

// How many bytes were moved and how many of those asked were left over.
#[derive(Clone, Copy, Default, PartialEq)]
pub struct Moved {
    pub n: u64,
    pub remainder: u64,
}

// The scheduler of an end after a call, and what the call moved or the refusal's number: a number, because the calls of copies and of ends
// refuse with types of their own.
#[derive(Clone, Copy, PartialEq)]
pub struct Told {
    pub scheduler: RingBufferScheduler,
    pub answer: Result<Moved, u64>,
}

impl Told {
    pub fn is_accepted(self) -> bool {
        self.answer.is_ok()
    }

    pub fn is_refused_with(self, number: u64) -> bool {
        self.answer == Err(number)
    }

    // A refused call moves nothing.
    pub fn moved(self) -> Moved {
        self.answer.unwrap_or_default()
    }
}

pub fn accepted(scheduler: RingBufferScheduler, n: u64, remainder: u64) -> Told {
    Told {
        scheduler,
        answer: Ok(Moved { n, remainder }),
    }
}

pub fn refused(scheduler: RingBufferScheduler, number: u64) -> Told {
    Told {
        scheduler,
        answer: Err(number),
    }
}

// ---- counters, by a function for each end: the ends are two types, so that none takes the counter that it sends

pub fn sent_by_writer(scheduler: RingBufferScheduler) -> Option<u64> {
    Some((WritingEnd { scheduler }).send().ok()?.0.0)
}

pub fn sent_by_reader(scheduler: RingBufferScheduler) -> Option<u64> {
    Some((ReadingEnd { scheduler }).send().ok()?.0.0)
}

pub fn take_read(scheduler: RingBufferScheduler, counter: u64) -> Told {
    match (WritingEnd { scheduler }).take(ReadCounter(Counter(counter))) {
        Ok(end) => accepted(end.scheduler, 0, 0),
        Err(e) => refused(scheduler, e.number()),
    }
}

pub fn take_written(scheduler: RingBufferScheduler, counter: u64) -> Told {
    match (ReadingEnd { scheduler }).take(WrittenCounter(Counter(counter))) {
        Ok(end) => accepted(end.scheduler, 0, 0),
        Err(e) => refused(scheduler, e.number()),
    }
}
