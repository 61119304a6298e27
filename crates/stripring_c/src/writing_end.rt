// The calls of the writing end. Every one tests the end that it is given anew.
ghost use Rattle.std.specs.Prelude.{◌≡◌};
ghost use Rattle.sched.specs.Scheduler.{scheduler_of};
ghost use Rattle.ends.specs.Ends.{writing_end_of, wrote_of, written_sent_of, take_read_of};
ghost use Rattle.flat.specs.ReadingEnd.{read_counter_at};
ghost use Rattle.flat.specs.Scheduler.{scheduler_at};
ghost use Rattle.flat.specs.WritingEnd.{writing_end_at, flat_writing_end_answer, wrote_answer_left, flat_wrote_left, flat_written_counter};

use flat::structs::{
    ReadCounter, Scheduler, WritingEnd, WritingEndAnswer, WrittenCounterAnswer, WroteAnswer,
};

// ---- making one

#[unsafe(no_mangle)]
pub extern "C" fn stripring_writing_end_new(buf_len: u64) -> WritingEndAnswer
    ensures { result ≡ flat_writing_end_answer (writing_end_of (scheduler_of buf_len (record { 0 = 0 }) (record { 0 = 0 }))) }
{
    stripring::writing_end::stripring_writing_end_new(buf_len)
}

#[unsafe(no_mangle)]
pub extern "C" fn stripring_writing_end_from_counters(
    buf_len: u64,
    items_written: u64,
    items_read: u64,
) -> WritingEndAnswer
    ensures { result ≡ flat_writing_end_answer (writing_end_of (scheduler_of buf_len (record { 0 = items_written }) (record { 0 = items_read }))) }
{
    stripring::writing_end::stripring_writing_end_from_counters(buf_len, items_written, items_read)
}

#[unsafe(no_mangle)]
pub extern "C" fn stripring_writing_end_from_scheduler(scheduler: Scheduler) -> WritingEndAnswer
    ensures { result ≡ flat_writing_end_answer (writing_end_of (scheduler_at scheduler)) }
{
    stripring::writing_end::stripring_writing_end_from_scheduler(scheduler)
}

// ---- writing, and sending and taking counters

#[unsafe(no_mangle)]
pub extern "C" fn stripring_writing_end_write(
    end: WritingEnd,
    ring: &mut [u8],
    src: &[u8],
) -> WroteAnswer
    ensures { wrote_answer_left result ring.new ≡ flat_wrote_left (wrote_of (writing_end_at end) ring.old src.now) }
{
    stripring::writing_end::stripring_writing_end_write(end, ring, src)
}

#[unsafe(no_mangle)]
pub extern "C" fn stripring_writing_end_send(end: WritingEnd) -> WrittenCounterAnswer
    ensures { result ≡ flat_written_counter (written_sent_of (writing_end_at end)) }
{
    stripring::writing_end::stripring_writing_end_send(end)
}

#[unsafe(no_mangle)]
pub extern "C" fn stripring_writing_end_take(
    end: WritingEnd,
    counter: ReadCounter,
) -> WritingEndAnswer
    ensures { result ≡ flat_writing_end_answer (take_read_of (writing_end_at end) (read_counter_at counter)) }
{
    stripring::writing_end::stripring_writing_end_take(end, counter)
}
