// The copies over a scheduler that is lent: its record is copied out, the copy is made by value, and the new record is stored back.
// Where the copy is refused the record is what it was, and no byte changes.
// Two calls, as there are two by value.
ghost use Rattle.copies.specs.Lent.{WriteLeaves, ReadLeaves};

use crate::{Refusal, read, write};
use sched::{Portion, RingBufferScheduler};

// Moves the first bytes of `src` into the ring, as `write` does.
pub fn write_lent(
    scheduler: &mut RingBufferScheduler,
    ring: &mut [u8],
    src: &[u8],
) -> Result<Portion, Refusal>
    ensures { WriteLeaves scheduler.old ring.old src.now result scheduler.new ring.new }
{
    let wrote = write(*scheduler, ring, src)?;
    *scheduler = wrote.scheduler;
    Ok(wrote.portion)
}

// Moves bytes of the ring to the front of `dst`, as `read` does.
pub fn read_lent(
    scheduler: &mut RingBufferScheduler,
    ring: &[u8],
    dst: &mut [u8],
) -> Result<Portion, Refusal>
    ensures { ReadLeaves scheduler.old ring.now dst.old result scheduler.new dst.new }
{
    let got = read(*scheduler, ring, dst)?;
    *scheduler = got.scheduler;
    Ok(got.portion)
}
