// A reading end and the counter that it sends, as numbers, and back, and what its calls answer.
// An answer is a struct of C with fields of its own (the C interface): a `match` for each.
ghost use Rattle.std.specs.Prelude.{◌≡◌};
ghost use Rattle.flat.specs.ReadingEnd.{read_counter_at, reading_end_at, flat_reading_end, flat_reading_end_answer, flat_got, flat_read_counter};

use crate::refusal::flat_end_refusal;
use crate::scheduler::{flat_scheduler, scheduler};
use crate::structs::{GotAnswer, ReadCounter, ReadCounterAnswer, ReadingEnd, ReadingEndAnswer};
use ends::Got;
use sched::Counter;

pub fn read_counter(c: ReadCounter) -> ends::ReadCounter
    ensures { result ≡ read_counter_at c }
{
    ends::ReadCounter(Counter(c.counter))
}

pub fn reading_end(e: ReadingEnd) -> ends::ReadingEnd
    ensures { result ≡ reading_end_at e }
{
    ends::ReadingEnd {
        scheduler: scheduler(e.scheduler),
    }
}

pub fn flat_reading_end(e: ends::ReadingEnd) -> ReadingEnd
    ensures { result ≡ flat_reading_end e }
{
    ReadingEnd {
        scheduler: flat_scheduler(e.scheduler),
    }
}

pub fn flat_reading_end_answer(a: Result<ends::ReadingEnd, ends::Refusal>) -> ReadingEndAnswer
    ensures { result ≡ flat_reading_end_answer a }
{
    match a {
        Ok(e) => ReadingEndAnswer {
            end: flat_reading_end(e),
            ..Default::default()
        },
        Err(e) => ReadingEndAnswer {
            refusal: flat_end_refusal(e),
            ..Default::default()
        },
    }
}

pub fn flat_got(a: Result<Got, ends::Refusal>) -> GotAnswer
    ensures { result ≡ flat_got a }
{
    match a {
        Ok(Got { end, portion }) => GotAnswer {
            end: flat_reading_end(end),
            n: portion.len,
            remainder: portion.remainder,
            ..Default::default()
        },
        Err(e) => GotAnswer {
            refusal: flat_end_refusal(e),
            ..Default::default()
        },
    }
}

pub fn flat_read_counter(a: Result<ends::ReadCounter, ends::Refusal>) -> ReadCounterAnswer
    ensures { result ≡ flat_read_counter a }
{
    match a {
        Ok(c) => ReadCounterAnswer {
            counter: ReadCounter { counter: c.0.0 },
            ..Default::default()
        },
        Err(e) => ReadCounterAnswer {
            refusal: flat_end_refusal(e),
            ..Default::default()
        },
    }
}
