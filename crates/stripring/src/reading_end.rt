// The calls of the reading end. Every one tests the end that it is given anew.
// The parameters come one by one: the C interface.
ghost use Rattle.std.specs.Prelude.{◌≡◌};
ghost use Rattle.sched.specs.Scheduler.{scheduler_of};
ghost use Rattle.ends.specs.Ends.{reading_end_of, got_of, read_sent_of, take_written_of};
ghost use Rattle.flat.specs.ReadingEnd.{reading_end_at, flat_reading_end_answer, got_answer_left, flat_got_left, flat_read_counter};
ghost use Rattle.flat.specs.Scheduler.{scheduler_at};
ghost use Rattle.flat.specs.WritingEnd.{written_counter_at};

use flat::reading_end::{flat_got, flat_read_counter, flat_reading_end_answer, reading_end};
use flat::scheduler::scheduler;
use flat::structs::{
    GotAnswer, ReadCounterAnswer, ReadingEnd, ReadingEndAnswer, Scheduler, WrittenCounter,
};
use flat::writing_end::written_counter;
use sched::Counter;

// ---- making one

pub fn stripring_reading_end_new(buf_len: u64) -> ReadingEndAnswer
    ensures { result ≡ flat_reading_end_answer (reading_end_of (scheduler_of buf_len (record { 0 = 0 }) (record { 0 = 0 }))) }
{
    flat_reading_end_answer(ends::ReadingEnd::new(buf_len))
}

pub fn stripring_reading_end_from_counters(
    buf_len: u64,
    items_written: u64,
    items_read: u64,
) -> ReadingEndAnswer
    ensures { result ≡ flat_reading_end_answer (reading_end_of (scheduler_of buf_len (record { 0 = items_written }) (record { 0 = items_read }))) }
{
    flat_reading_end_answer(ends::ReadingEnd::from_counters(
        buf_len,
        Counter(items_written),
        Counter(items_read),
    ))
}

pub fn stripring_reading_end_from_scheduler(s: Scheduler) -> ReadingEndAnswer
    ensures { result ≡ flat_reading_end_answer (reading_end_of (scheduler_at s)) }
{
    flat_reading_end_answer(ends::ReadingEnd::from_scheduler(scheduler(s)))
}

// ---- reading, and sending and taking counters

pub fn stripring_reading_end_read(e: ReadingEnd, ring: &[u8], dst: &mut [u8]) -> GotAnswer
    ensures { got_answer_left result dst.new ≡ flat_got_left (got_of (reading_end_at e) ring.now dst.old) }
{
    flat_got(reading_end(e).read(ring, dst))
}

pub fn stripring_reading_end_send(e: ReadingEnd) -> ReadCounterAnswer
    ensures { result ≡ flat_read_counter (read_sent_of (reading_end_at e)) }
{
    flat_read_counter(reading_end(e).send())
}

pub fn stripring_reading_end_take(e: ReadingEnd, counter: WrittenCounter) -> ReadingEndAnswer
    ensures { result ≡ flat_reading_end_answer (take_written_of (reading_end_at e) (written_counter_at counter)) }
{
    flat_reading_end_answer(reading_end(e).take(written_counter(counter)))
}
