// Byte copies between the ring's lent memory and a caller's slice, by value over the scheduler (`lent`: over a lent one). A copy asks the
// scheduler once, which tests its record and answers where, how many, and the scheduler after. The lent memory is written last, once
// nothing can be refused any more.
//
// Each way has a function of its own: which slice is lent to be changed differs, and no type stands for `&` and `&mut` both.
// The ring and the caller's slice are two parameters: two owners lend them, and one of the two is changed.
// A place stands beside the ring (`at`, `place`): from it the bytes go on at the ring's start, which no slice does.
#![tactic(auto)]

ghost use Rattle.std.specs.Prelude.{◌≡◌, ◌≤◌, ◌<◌, length};
ghost use Rattle.copies.specs.Ring.{put, get};
ghost use Rattle.copies.specs.Copies.{left, from_move, ready_of, write_of, read_of};

use sched::{Move, OperationType, Portion, RingBufferScheduler};

mod lent;
mod number;
mod refusal;

pub use lent::{read_lent, write_lent};
pub use number::big_endian;
pub use refusal::Refusal;

// The scheduler after the copy, how many bytes were moved and how many left over.
#[derive(Clone, Copy)]
pub struct Copied {
    pub scheduler: RingBufferScheduler,
    pub portion: Portion,
}

// A move comes to this once its bytes are copied: how many were moved and how many left over are the scheduler's.
impl From<Move> for Copied {
    ghost from_gives = { λ m c. c ≡ from_move m };

    fn from(m: Move) -> Copied {
        Copied {
            scheduler: m.scheduler,
            portion: m.portion,
        }
    }
}

// 1 to 5 and 20, then 9.
#[tactic(auto, using(std::proofs::lemmas::Bool::Decides::nat_tests), unfolding(crate::specs::Copies::ready_from))]
pub fn demand_ring_memory(
    scheduler: RingBufferScheduler,
    ring_len: usize,
) -> Result<RingBufferScheduler, Refusal>
    ensures { result ≡ ready_of scheduler ring_len }
{
    let sound = scheduler.demand_soundness()?;
    if ring_len as u64 != sound.buf_len {
        return Err(Refusal::RingMemory);
    }
    Ok(sound)
}

// Moves the first bytes of `src` into the ring, as many as there is space for: 1 to 5 and 20, then 9, and then it is not refused any more.
#[tactic(auto, using(crate::proofs::Laws::copy_laws))]
pub fn write(scheduler: RingBufferScheduler, ring: &mut [u8], src: &[u8]) -> Result<Copied, Refusal>
    ensures { left result ring.new ≡ write_of scheduler ring.old src.now }
{
    let m = scheduler.schedule_and_register(OperationType::Write, src.len() as u64)?;
    if ring.len() as u64 != scheduler.buf_len {
        return Err(Refusal::RingMemory);
    }
    put_round(&src[..m.portion.len as usize], ring, m.off.0 as usize);
    Ok(Copied::from(m))
}

// Moves bytes of the ring to the front of `dst`, as many as there are and fit.
#[tactic(auto, using(crate::proofs::Laws::copy_laws))]
pub fn read(scheduler: RingBufferScheduler, ring: &[u8], dst: &mut [u8]) -> Result<Copied, Refusal>
    ensures { left result dst.new ≡ read_of scheduler ring.now dst.old }
{
    let m = scheduler.schedule_and_register(OperationType::Read, dst.len() as u64)?;
    if ring.len() as u64 != scheduler.buf_len {
        return Err(Refusal::RingMemory);
    }
    get_round(ring, m.off.0 as usize, &mut dst[..m.portion.len as usize]);
    Ok(Copied::from(m))
}

// The bytes of `src` go to the ring's places from `at` on, and go on at its start where it ends.
#[tactic(auto, using(crate::proofs::Laws::round_laws))]
fn put_round(src: &[u8], ring: &mut [u8], at: usize)
    requires { (at < length ring.old) × (length src.now ≤ length ring.old) }
    ensures { ring.new ≡ put (length ring.old) ring.old at src.now }
{
    let (ahead, round) = src.split_at(src.len().min(ring.len() - at));
    ring[at..at + ahead.len()].copy_from_slice(ahead);
    // A copy of no bytes costs a call.
    if !round.is_empty() {
        ring[..round.len()].copy_from_slice(round);
    }
}

// The bytes at the ring's places from `at` on, which go on at its start where it ends, fill `dst`.
#[tactic(auto, using(crate::proofs::Laws::round_laws))]
fn get_round(ring: &[u8], at: usize, dst: &mut [u8])
    requires { (at < length ring.now) × (length dst.old ≤ length ring.now) }
    ensures { dst.new ≡ get (length ring.now) ring.now at (length dst.old) }
{
    let (ahead, round) = dst.split_at_mut(dst.len().min(ring.len() - at));
    ahead.copy_from_slice(&ring[at..at + ahead.len()]);
    if !round.is_empty() {
        round.copy_from_slice(&ring[..round.len()]);
    }
}
