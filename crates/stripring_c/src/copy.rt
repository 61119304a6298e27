// Copies between the ring's lent memory and a host's slice.
ghost use Rattle.std.specs.Prelude.{◌≡◌};
ghost use Rattle.copies.specs.Copies.{write_of, read_of};
ghost use Rattle.flat.specs.Copy.{copy_answer_left, flat_left};
ghost use Rattle.flat.specs.Scheduler.{scheduler_at};

use flat::structs::{CopyAnswer, Scheduler};

#[unsafe(no_mangle)]
pub extern "C" fn stripring_copies_write(
    scheduler: Scheduler,
    ring: &mut [u8],
    src: &[u8],
) -> CopyAnswer
    ensures { copy_answer_left result ring.new ≡ flat_left (write_of (scheduler_at scheduler) ring.old src.now) }
{
    stripring::copy::stripring_copies_write(scheduler, ring, src)
}

#[unsafe(no_mangle)]
pub extern "C" fn stripring_copies_read(
    scheduler: Scheduler,
    ring: &[u8],
    dst: &mut [u8],
) -> CopyAnswer
    ensures { copy_answer_left result dst.new ≡ flat_left (read_of (scheduler_at scheduler) ring.now dst.old) }
{
    stripring::copy::stripring_copies_read(scheduler, ring, dst)
}
