// The calls that change a host's end in place: its struct is copied out, the call is made by value, and the end after it is stored back.
// A refused call leaves the struct's bits as they are.
// The two ends are structs of C (the C interface), each with calls of its own.
ghost use Rattle.stripring.specs.InPlace.{WriteInPlace, TakeReadInPlace, ReadInPlace, TakeWrittenInPlace};

use ends::{Got, Wrote};
use flat::reading_end::{flat_reading_end, read_counter, reading_end};
use flat::refusal::{flat_end_refusal, no_refusal};
use flat::structs::{MovedAnswer, ReadCounter, ReadingEnd, Refusal, WritingEnd, WrittenCounter};
use flat::writing_end::{flat_writing_end, writing_end, written_counter};

// ---- the writing end; parameters come one by one, as the exports have them

pub fn stripring_writing_end_write_in_place(
    end: &mut WritingEnd,
    ring: &mut [u8],
    src: &[u8],
) -> MovedAnswer
    ensures { WriteInPlace end.old ring.old src.now result end.new ring.new }
{
    match writing_end(*end).write(ring, src) {
        Ok(Wrote { end: next, portion }) => {
            *end = flat_writing_end(next);
            MovedAnswer {
                n: portion.len,
                remainder: portion.remainder,
                ..Default::default()
            }
        }
        Err(e) => MovedAnswer {
            refusal: flat_end_refusal(e),
            ..Default::default()
        },
    }
}

pub fn stripring_writing_end_take_in_place(end: &mut WritingEnd, counter: ReadCounter) -> Refusal
    ensures { TakeReadInPlace end.old counter result end.new }
{
    match writing_end(*end).take(read_counter(counter)) {
        Ok(next) => {
            *end = flat_writing_end(next);
            no_refusal()
        }
        Err(e) => flat_end_refusal(e),
    }
}

// ---- the reading end

pub fn stripring_reading_end_read_in_place(
    end: &mut ReadingEnd,
    ring: &[u8],
    dst: &mut [u8],
) -> MovedAnswer
    ensures { ReadInPlace end.old ring.now dst.old result end.new dst.new }
{
    match reading_end(*end).read(ring, dst) {
        Ok(Got { end: next, portion }) => {
            *end = flat_reading_end(next);
            MovedAnswer {
                n: portion.len,
                remainder: portion.remainder,
                ..Default::default()
            }
        }
        Err(e) => MovedAnswer {
            refusal: flat_end_refusal(e),
            ..Default::default()
        },
    }
}

pub fn stripring_reading_end_take_in_place(end: &mut ReadingEnd, counter: WrittenCounter) -> Refusal
    ensures { TakeWrittenInPlace end.old counter result end.new }
{
    match reading_end(*end).take(written_counter(counter)) {
        Ok(next) => {
            *end = flat_reading_end(next);
            no_refusal()
        }
        Err(e) => flat_end_refusal(e),
    }
}
