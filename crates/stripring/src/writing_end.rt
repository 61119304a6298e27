// The calls of the writing end. Every one tests the end that it is given anew.
// The parameters come one by one: the C interface.
ghost use Rattle.std.specs.Prelude.{◌≡◌};
ghost use Rattle.sched.specs.Scheduler.{scheduler_of};
ghost use Rattle.ends.specs.Ends.{writing_end_of, wrote_of, written_sent_of, take_read_of};
ghost use Rattle.flat.specs.ReadingEnd.{read_counter_at};
ghost use Rattle.flat.specs.Scheduler.{scheduler_at};
ghost use Rattle.flat.specs.WritingEnd.{writing_end_at, flat_writing_end_answer, wrote_answer_left, flat_wrote_left, flat_written_counter};

use flat::reading_end::read_counter;
use flat::scheduler::scheduler;
use flat::structs::{
    ReadCounter, Scheduler, WritingEnd, WritingEndAnswer, WrittenCounterAnswer, WroteAnswer,
};
use flat::writing_end::{flat_writing_end_answer, flat_written_counter, flat_wrote, writing_end};
use sched::Counter;

// ---- making one

pub fn stripring_writing_end_new(buf_len: u64) -> WritingEndAnswer
    ensures { result ≡ flat_writing_end_answer (writing_end_of (scheduler_of buf_len (record { 0 = 0 }) (record { 0 = 0 }))) }
{
    flat_writing_end_answer(ends::WritingEnd::new(buf_len))
}

pub fn stripring_writing_end_from_counters(
    buf_len: u64,
    items_written: u64,
    items_read: u64,
) -> WritingEndAnswer
    ensures { result ≡ flat_writing_end_answer (writing_end_of (scheduler_of buf_len (record { 0 = items_written }) (record { 0 = items_read }))) }
{
    flat_writing_end_answer(ends::WritingEnd::from_counters(
        buf_len,
        Counter(items_written),
        Counter(items_read),
    ))
}

pub fn stripring_writing_end_from_scheduler(s: Scheduler) -> WritingEndAnswer
    ensures { result ≡ flat_writing_end_answer (writing_end_of (scheduler_at s)) }
{
    flat_writing_end_answer(ends::WritingEnd::from_scheduler(scheduler(s)))
}

// ---- writing, and sending and taking counters

pub fn stripring_writing_end_write(e: WritingEnd, ring: &mut [u8], src: &[u8]) -> WroteAnswer
    ensures { wrote_answer_left result ring.new ≡ flat_wrote_left (wrote_of (writing_end_at e) ring.old src.now) }
{
    flat_wrote(writing_end(e).write(ring, src))
}

pub fn stripring_writing_end_send(e: WritingEnd) -> WrittenCounterAnswer
    ensures { result ≡ flat_written_counter (written_sent_of (writing_end_at e)) }
{
    flat_written_counter(writing_end(e).send())
}

pub fn stripring_writing_end_take(e: WritingEnd, counter: ReadCounter) -> WritingEndAnswer
    ensures { result ≡ flat_writing_end_answer (take_read_of (writing_end_at e) (read_counter_at counter)) }
{
    flat_writing_end_answer(writing_end(e).take(read_counter(counter)))
}
