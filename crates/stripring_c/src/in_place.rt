// The calls that change a host's end in place: its struct is copied out, the call is made by value, and the end after it is stored back.
// A refused call leaves the struct's bits as they are.
ghost use Rattle.stripring.specs.InPlace.{WriteInPlace, TakeReadInPlace, ReadInPlace, TakeWrittenInPlace};

use flat::structs::{MovedAnswer, ReadCounter, ReadingEnd, Refusal, WritingEnd, WrittenCounter};

// ---- the writing end

#[unsafe(no_mangle)]
pub extern "C" fn stripring_writing_end_write_in_place(
    end: &mut WritingEnd,
    ring: &mut [u8],
    src: &[u8],
) -> MovedAnswer
    ensures { WriteInPlace end.old ring.old src.now result end.new ring.new }
{
    stripring::in_place::stripring_writing_end_write_in_place(end, ring, src)
}

#[unsafe(no_mangle)]
pub extern "C" fn stripring_writing_end_take_in_place(
    end: &mut WritingEnd,
    counter: ReadCounter,
) -> Refusal
    ensures { TakeReadInPlace end.old counter result end.new }
{
    stripring::in_place::stripring_writing_end_take_in_place(end, counter)
}

// ---- the reading end

#[unsafe(no_mangle)]
pub extern "C" fn stripring_reading_end_read_in_place(
    end: &mut ReadingEnd,
    ring: &[u8],
    dst: &mut [u8],
) -> MovedAnswer
    ensures { ReadInPlace end.old ring.now dst.old result end.new dst.new }
{
    stripring::in_place::stripring_reading_end_read_in_place(end, ring, dst)
}

#[unsafe(no_mangle)]
pub extern "C" fn stripring_reading_end_take_in_place(
    end: &mut ReadingEnd,
    counter: WrittenCounter,
) -> Refusal
    ensures { TakeWrittenInPlace end.old counter result end.new }
{
    stripring::in_place::stripring_reading_end_take_in_place(end, counter)
}
