// The copies of the two ends, and beside each the copy over a lent scheduler, on copies of the same bytes.
ghost use Rattle.copies.specs.Lent.{WriteLeaves, ReadLeaves};

use crate::calls::{Told, accepted, refused};
use crate::memory::Memory;
use ends::{Got, ReadingEnd, WritingEnd, Wrote};
use sched::{Portion, RingBufferScheduler};

// What a copy is told, and what it leaves where it goes: of a write the ring, of a read the destination.
#[derive(Clone, Copy, PartialEq)]
pub struct Copied {
    pub told: Told,
    pub left: Memory,
}

impl Copied {
    // Of a copy to this memory.
    fn to<F: FnOnce(&mut [u8]) -> Told>(memory: Memory, copy: F) -> Copied
        requires { F.IsAlwaysCallable copy }
    {
        let mut left = memory;
        let len = left.lent_len();
        let told = copy(&mut left.bytes[..len]);
        Copied { told, left }
    }
}

// ---- by the ends, and so by a function for each: the ends are two types, of which one copies into the ring and one out of it

pub fn written(scheduler: RingBufferScheduler, ring: Memory, src: Memory) -> Copied {
    Copied::to(ring, |ring| {
        wrote(
            scheduler,
            (WritingEnd { scheduler }).write(ring, src.lent()),
        )
    })
}

pub fn read_out(scheduler: RingBufferScheduler, ring: Memory, dst: Memory) -> Copied {
    Copied::to(dst, |dst| {
        got(scheduler, (ReadingEnd { scheduler }).read(ring.lent(), dst))
    })
}

fn wrote(before: RingBufferScheduler, answer: Result<Wrote, ends::Refusal>) -> Told {
    match answer {
        Ok(Wrote { end, portion }) => accepted(end.scheduler, portion.len, portion.remainder),
        Err(e) => refused(before, e.number()),
    }
}

fn got(before: RingBufferScheduler, answer: Result<Got, ends::Refusal>) -> Told {
    match answer {
        Ok(Got { end, portion }) => accepted(end.scheduler, portion.len, portion.remainder),
        Err(e) => refused(before, e.number()),
    }
}

// ---- over a lent scheduler

pub fn written_lent(scheduler: RingBufferScheduler, ring: Memory, src: Memory) -> Copied {
    Copied::to(ring, |ring| flat(write(scheduler, ring, src.lent())))
}

pub fn read_out_lent(scheduler: RingBufferScheduler, ring: Memory, dst: Memory) -> Copied {
    Copied::to(dst, |dst| flat(read(scheduler, ring.lent(), dst)))
}

fn flat(lent: Lent) -> Told {
    let scheduler = lent.scheduler;
    let told = lent.told;
    match told {
        Ok(portion) => accepted(scheduler, portion.len, portion.remainder),
        Err(e) => refused(scheduler, e.number()),
    }
}

// The scheduler that was lent, after the call, and what the call told.
#[derive(Clone, Copy)]
pub struct Lent {
    pub scheduler: RingBufferScheduler,
    pub told: Result<Portion, copies::Refusal>,
}

// These two lend the scheduler, and nothing else does. Two, as in copies: another slice is lent to be changed.
fn write(s: RingBufferScheduler, ring: &mut [u8], src: &[u8]) -> Lent
    ensures { WriteLeaves s ring.old src.now result.told result.scheduler ring.new }
{
    let mut scheduler = s;
    let told = copies::write_lent(&mut scheduler, ring, src);
    Lent { scheduler, told }
}

fn read(s: RingBufferScheduler, ring: &[u8], dst: &mut [u8]) -> Lent
    ensures { ReadLeaves s ring.now dst.old result.told result.scheduler dst.new }
{
    let mut scheduler = s;
    let told = copies::read_lent(&mut scheduler, ring, dst);
    Lent { scheduler, told }
}
