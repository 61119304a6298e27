// Calls that must be refused, and must leave every byte as it was.
// A function for each end: the two differ in the end's type and in each field that they name, and one for both would take all of these.
use crate::calls;
use crate::calls::Told;
use crate::copy::Copied;
use crate::memory::Memory;
use crate::numbers::{add, rem, sub};
use crate::report::Report;
use crate::world::World;

pub fn refused(world: World, random: u64, len: u64) -> World {
    if random >> 59 == 30 {
        return writer_runs_back(reader_runs_back(world, random >> 16), random >> 16);
    }
    if len == world.ring.len {
        return world;
    }
    writes_wrong(reads_wrong(world, len), len)
}

// Each end is offered a counter that would take back some of its data, or of its space, where it has any.
fn reader_runs_back(mut world: World, random: u64) -> World {
    let data = world.data();
    if data == 0 {
        return world;
    }
    let by = rem(random, data);
    let counter = before(world.ring.len, world.reader.items_written.0, by);
    let told = calls::take_written(world.reader, counter);
    world.report = ran_back(world.report, told);
    world
}

fn writer_runs_back(mut world: World, random: u64) -> World {
    let space = world.space();
    if space == 0 {
        return world;
    }
    let by = rem(random, space);
    let counter = before(world.ring.len, world.writer.items_read.0, by);
    let told = calls::take_read(world.writer, counter);
    world.report = ran_back(world.report, told);
    world
}

// The counter of one byte more than so many before.
fn before(len: u64, counter: u64, by: u64) -> u64 {
    let twice = add(len, len);
    rem(add(counter, sub(twice, add(by, 1))), twice)
}

fn ran_back(mut report: Report, told: Told) -> Report {
    report.ran_back = add(report.ran_back, 1);
    report.numbers.check(told.is_refused_with(10));
    report
}

// Memory of any other length up to 12 is lent to both ends in the ring's place.
fn writes_wrong(mut world: World, len: u64) -> World {
    let src = Memory::source(world.written, 12);
    let copied = world.write(Memory::marked(len), src);
    memory_wrong(world, copied)
}

fn reads_wrong(mut world: World, len: u64) -> World {
    let ring = Memory::source(world.read, len);
    let copied = world.read_out(ring, Memory::marked(12));
    memory_wrong(world, copied)
}

fn memory_wrong(mut world: World, copied: Copied) -> World {
    let left = copied.left;
    let mut report = world.report;
    report.wrong_memory = add(report.wrong_memory, 1);
    report.numbers.check(copied.told.is_refused_with(9));
    report
        .left
        .same(left, Memory::marked(left.len), 0..left.len);
    world.report = report;
    world
}
