// The calls of the reading end. Every one tests the end that it is given anew.
ghost use Rattle.std.specs.Prelude.{◌≡◌};
ghost use Rattle.sched.specs.Scheduler.{scheduler_of};
ghost use Rattle.ends.specs.Ends.{reading_end_of, got_of, read_sent_of, take_written_of};
ghost use Rattle.flat.specs.ReadingEnd.{reading_end_at, flat_reading_end_answer, got_answer_left, flat_got_left, flat_read_counter};
ghost use Rattle.flat.specs.Scheduler.{scheduler_at};
ghost use Rattle.flat.specs.WritingEnd.{written_counter_at};

use flat::structs::{
    GotAnswer, ReadCounterAnswer, ReadingEnd, ReadingEndAnswer, Scheduler, WrittenCounter,
};

// ---- making one

#[unsafe(no_mangle)]
pub extern "C" fn stripring_reading_end_new(buf_len: u64) -> ReadingEndAnswer
    ensures { result ≡ flat_reading_end_answer (reading_end_of (scheduler_of buf_len (record { 0 = 0 }) (record { 0 = 0 }))) }
{
    stripring::reading_end::stripring_reading_end_new(buf_len)
}

#[unsafe(no_mangle)]
pub extern "C" fn stripring_reading_end_from_counters(
    buf_len: u64,
    items_written: u64,
    items_read: u64,
) -> ReadingEndAnswer
    ensures { result ≡ flat_reading_end_answer (reading_end_of (scheduler_of buf_len (record { 0 = items_written }) (record { 0 = items_read }))) }
{
    stripring::reading_end::stripring_reading_end_from_counters(buf_len, items_written, items_read)
}

#[unsafe(no_mangle)]
pub extern "C" fn stripring_reading_end_from_scheduler(scheduler: Scheduler) -> ReadingEndAnswer
    ensures { result ≡ flat_reading_end_answer (reading_end_of (scheduler_at scheduler)) }
{
    stripring::reading_end::stripring_reading_end_from_scheduler(scheduler)
}

// ---- reading, and sending and taking counters

#[unsafe(no_mangle)]
pub extern "C" fn stripring_reading_end_read(
    end: ReadingEnd,
    ring: &[u8],
    dst: &mut [u8],
) -> GotAnswer
    ensures { got_answer_left result dst.new ≡ flat_got_left (got_of (reading_end_at end) ring.now dst.old) }
{
    stripring::reading_end::stripring_reading_end_read(end, ring, dst)
}

#[unsafe(no_mangle)]
pub extern "C" fn stripring_reading_end_send(end: ReadingEnd) -> ReadCounterAnswer
    ensures { result ≡ flat_read_counter (read_sent_of (reading_end_at end)) }
{
    stripring::reading_end::stripring_reading_end_send(end)
}

#[unsafe(no_mangle)]
pub extern "C" fn stripring_reading_end_take(
    end: ReadingEnd,
    counter: WrittenCounter,
) -> ReadingEndAnswer
    ensures { result ≡ flat_reading_end_answer (take_written_of (reading_end_at end) (written_counter_at counter)) }
{
    stripring::reading_end::stripring_reading_end_take(end, counter)
}
