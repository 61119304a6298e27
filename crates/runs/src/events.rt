// The events: each end copies, sends its counter and takes the other's.
// A function for each end: the two differ in the end's type and in each field that they name, and one for both would take all of these.
use crate::calls::Told;
use crate::copy::Copied;
use crate::memory::Memory;
use crate::numbers::add;
use crate::report::Report;
use crate::world::World;
use crate::{calls, wanted};

// The bits of one random number say which event it is and what is picked in it.
// By number: an enum of the events would be made of one and matched here, and be named nowhere else.
pub fn happened(world: World, random: u64) -> World {
    let amount = (random >> 8) % 13;
    let kind = (random >> 59) / 5;
    match kind {
        0 => writes(world, amount),
        1 => reads(world, amount),
        2 => writer_sends(world),
        3 => reader_sends(world),
        4 => reader_takes(world, random >> 16),
        5 => writer_takes(world, random >> 16),
        _ => wanted::refused(world, random, amount),
    }
}

fn writes(mut world: World, asked: u64) -> World {
    let ring = world.ring;
    let src = Memory::source(world.written, asked);
    let copied = world.write(ring, src);
    wrote(world, asked, copied)
}

fn reads(mut world: World, asked: u64) -> World {
    let ring = world.ring;
    let copied = world.read_out(ring, Memory::marked(asked));
    got(world, asked, copied)
}

fn wrote(mut world: World, asked: u64, copied: Copied) -> World {
    let told = copied.told;
    let ring = copied.left;
    let n = told.moved().n;
    let space = world.writer.space_avail().unwrap_or(u64::MAX);
    let old_cells = world.cells(world.ring, world.written);
    let cells = world.cells(ring, world.written);
    let mut report = moved(world.report, told, asked, space, world.space());
    report.writes.count(n);
    report.only_own.same(old_cells, cells, n..ring.len);
    world.report = report;
    world.writer = told.scheduler;
    world.ring = ring;
    world.written = add(world.written, n);
    world
}

fn got(mut world: World, asked: u64, copied: Copied) -> World {
    let told = copied.told;
    let dst = copied.left;
    let n = told.moved().n;
    let data = world.reader.data_avail().unwrap_or(u64::MAX);
    let mut report = moved(world.report, told, asked, data, world.data());
    report.reads.count(n);
    report
        .in_order
        .same(dst, Memory::source(world.read, n), 0..n);
    report.untouched.same(dst, Memory::marked(asked), n..asked);
    world.report = report;
    world.reader = told.scheduler;
    world.read = add(world.read, n);
    world
}

// As many bytes as asked and as the record has, and the rest of those asked is left over; and the record has as many as the positions
// allow.
fn moved(mut report: Report, told: Told, asked: u64, has: u64, allowed: u64) -> Report {
    let moved = told.moved();
    report.accepted.check(told.is_accepted());
    report.views.check(has == allowed);
    report.exact.check(moved.n == asked.min(has));
    report
        .left_over
        .check(add(moved.n, moved.remainder) == asked);
    report
}

fn writer_sends(mut world: World) -> World {
    let counter = calls::sent_by_writer(world.writer);
    world.report.accepted.check(counter.is_some());
    if let Some(counter) = counter {
        world.by_writer = world.by_writer.send(counter, world.written);
    }
    world.report.by_writer.send();
    world
}

fn reader_sends(mut world: World) -> World {
    let counter = calls::sent_by_reader(world.reader);
    world.report.accepted.check(counter.is_some());
    if let Some(counter) = counter {
        world.by_reader = world.by_reader.send(counter, world.read);
    }
    world.report.by_reader.send();
    world
}

// Where nothing was sent, nothing happens.
fn reader_takes(mut world: World, random: u64) -> World {
    let notes = world.by_writer;
    let Some(note) = notes.pick(random) else {
        return world;
    };
    let told = calls::take_written(world.reader, note.counter);
    world.reader = told.scheduler;
    world.by_writer = notes.take(note);
    world.report.accepted.check(told.is_accepted());
    world.report.by_writer.take(note, notes.sent);
    world
}

fn writer_takes(mut world: World, random: u64) -> World {
    let notes = world.by_reader;
    let Some(note) = notes.pick(random) else {
        return world;
    };
    let told = calls::take_read(world.writer, note.counter);
    world.writer = told.scheduler;
    world.by_reader = notes.take(note);
    world.report.accepted.check(told.is_accepted());
    world.report.by_reader.take(note, notes.sent);
    world
}
