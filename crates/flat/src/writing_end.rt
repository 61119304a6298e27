// A writing end and the counter that it sends, as numbers, and back, and what its calls answer.
// An answer is a struct of C with fields of its own (the C interface): a `match` for each.
ghost use Rattle.std.specs.Prelude.{◌≡◌};
ghost use Rattle.flat.specs.WritingEnd.{written_counter_at, writing_end_at, flat_writing_end, flat_writing_end_answer, flat_wrote, flat_written_counter};

use crate::refusal::flat_end_refusal;
use crate::scheduler::{flat_scheduler, scheduler};
use crate::structs::{
    WritingEnd, WritingEndAnswer, WrittenCounter, WrittenCounterAnswer, WroteAnswer,
};
use ends::Wrote;
use sched::Counter;

pub fn written_counter(c: WrittenCounter) -> ends::WrittenCounter
    ensures { result ≡ written_counter_at c }
{
    ends::WrittenCounter(Counter(c.counter))
}

pub fn writing_end(e: WritingEnd) -> ends::WritingEnd
    ensures { result ≡ writing_end_at e }
{
    ends::WritingEnd {
        scheduler: scheduler(e.scheduler),
    }
}

pub fn flat_writing_end(e: ends::WritingEnd) -> WritingEnd
    ensures { result ≡ flat_writing_end e }
{
    WritingEnd {
        scheduler: flat_scheduler(e.scheduler),
    }
}

pub fn flat_writing_end_answer(a: Result<ends::WritingEnd, ends::Refusal>) -> WritingEndAnswer
    ensures { result ≡ flat_writing_end_answer a }
{
    match a {
        Ok(e) => WritingEndAnswer {
            end: flat_writing_end(e),
            ..Default::default()
        },
        Err(e) => WritingEndAnswer {
            refusal: flat_end_refusal(e),
            ..Default::default()
        },
    }
}

pub fn flat_wrote(a: Result<Wrote, ends::Refusal>) -> WroteAnswer
    ensures { result ≡ flat_wrote a }
{
    match a {
        Ok(Wrote { end, portion }) => WroteAnswer {
            end: flat_writing_end(end),
            n: portion.len,
            remainder: portion.remainder,
            ..Default::default()
        },
        Err(e) => WroteAnswer {
            refusal: flat_end_refusal(e),
            ..Default::default()
        },
    }
}

pub fn flat_written_counter(a: Result<ends::WrittenCounter, ends::Refusal>) -> WrittenCounterAnswer
    ensures { result ≡ flat_written_counter a }
{
    match a {
        Ok(c) => WrittenCounterAnswer {
            counter: WrittenCounter { counter: c.0.0 },
            ..Default::default()
        },
        Err(e) => WrittenCounterAnswer {
            refusal: flat_end_refusal(e),
            ..Default::default()
        },
    }
}
