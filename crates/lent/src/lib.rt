// The calls that change a lent end: its record is copied out, the call is made by value, and the end after it is stored back.
// Where the call is refused the end is what it was, and no byte changes.
// Each is of one end, as the call by value is: `ends` says why it has two types.
#![tactic(auto)]

ghost use Rattle.lent.specs.Lent.{WriteLeaves, ReadLeaves, TakeReadLeaves, TakeWrittenLeaves};

use ends::{ReadCounter, ReadingEnd, Refusal, WritingEnd, WrittenCounter};
use sched::Portion;

// Moves the first bytes of `src` into the ring, as `WritingEnd::write` does.
pub fn write_lent(end: &mut WritingEnd, ring: &mut [u8], src: &[u8]) -> Result<Portion, Refusal>
    ensures { WriteLeaves end.old ring.old src.now result end.new ring.new }
{
    let wrote = end.write(ring, src)?;
    *end = wrote.end;
    Ok(wrote.portion)
}

// Moves bytes of the ring to the front of `dst`, as `ReadingEnd::read` does.
pub fn read_lent(end: &mut ReadingEnd, ring: &[u8], dst: &mut [u8]) -> Result<Portion, Refusal>
    ensures { ReadLeaves end.old ring.now dst.old result end.new dst.new }
{
    let got = end.read(ring, dst)?;
    *end = got.end;
    Ok(got.portion)
}

// Takes the other end's counter, as `WritingEnd::take` does.
pub fn take_read_lent(end: &mut WritingEnd, counter: ReadCounter) -> Result<(), Refusal>
    ensures { TakeReadLeaves end.old counter result end.new }
{
    *end = end.take(counter)?;
    Ok(())
}

// Takes the other end's counter, as `ReadingEnd::take` does.
pub fn take_written_lent(end: &mut ReadingEnd, counter: WrittenCounter) -> Result<(), Refusal>
    ensures { TakeWrittenLeaves end.old counter result end.new }
{
    *end = end.take(counter)?;
    Ok(())
}
