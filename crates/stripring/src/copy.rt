// Copies between the ring's lent memory and a host's slice.
// The parameters come one by one: the C interface.
ghost use Rattle.std.specs.Prelude.{◌≡◌};
ghost use Rattle.copies.specs.Copies.{write_of, read_of};
ghost use Rattle.flat.specs.Copy.{copy_answer_left, flat_left};
ghost use Rattle.flat.specs.Scheduler.{scheduler_at};

use flat::copy::flat_copied;
use flat::scheduler::scheduler;
use flat::structs::{CopyAnswer, Scheduler};

pub fn stripring_copies_write(s: Scheduler, ring: &mut [u8], src: &[u8]) -> CopyAnswer
    ensures { copy_answer_left result ring.new ≡ flat_left (write_of (scheduler_at s) ring.old src.now) }
{
    flat_copied(copies::write(scheduler(s), ring, src))
}

pub fn stripring_copies_read(s: Scheduler, ring: &[u8], dst: &mut [u8]) -> CopyAnswer
    ensures { copy_answer_left result dst.new ≡ flat_left (read_of (scheduler_at s) ring.now dst.old) }
{
    flat_copied(copies::read(scheduler(s), ring, dst))
}
