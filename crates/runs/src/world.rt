// Two ends over one ring, what has happened to them, and what holds of them after every event.
use crate::copy::Copied;
use crate::memory::Memory;
use crate::notes::Notes;
use crate::numbers::{add, rem, sub};
use crate::report::Report;
use crate::{calls, copy, memory};
use sched::{Counter, RingBufferScheduler};

#[derive(Clone, Copy)]
pub struct World {
    // The records of the two ends.
    pub writer: RingBufferScheduler,
    pub reader: RingBufferScheduler,
    pub ring: Memory,
    // The counter that both ends started with.
    start: u64,
    // How many bytes were written and read: the positions of the next ones.
    pub written: u64,
    pub read: u64,
    // What each end sent.
    pub by_writer: Notes,
    pub by_reader: Notes,
    pub report: Report,
}

impl World {
    // Both ends are new, and the ring holds old bytes.
    pub fn new(report: Report, len: u64, start: u64) -> World {
        let at = Counter(start);
        let scheduler = RingBufferScheduler::from_numbers(len, at, at, 0);
        World {
            writer: scheduler,
            reader: scheduler,
            ring: Memory::of(memory::OLD, len),
            start,
            written: 0,
            read: 0,
            by_writer: Notes::default(),
            by_reader: Notes::default(),
            report,
        }
    }

    // What the writing end may write, by the positions.
    pub fn space(self) -> u64 {
        sub(self.ring.len, sub(self.written, self.by_reader.heard))
    }

    // What the reading end may read, by the positions.
    pub fn data(self) -> u64 {
        sub(self.by_writer.heard, self.read)
    }

    // The copies of the two ends with this memory in the ring's place. A lent scheduler makes the same.
    // A function for each end: the ends are two types, of which one copies into the ring and one out of it.

    pub fn write(&mut self, ring: Memory, src: Memory) -> Copied {
        let copied = copy::written(self.writer, ring, src);
        let lent = copy::written_lent(self.writer, ring, src);
        self.report.lent.check(copied == lent);
        copied
    }

    pub fn read_out(&mut self, ring: Memory, dst: Memory) -> Copied {
        let copied = copy::read_out(self.reader, ring, dst);
        let lent = copy::read_out_lent(self.reader, ring, dst);
        self.report.lent.check(copied == lent);
        copied
    }

    // The ring's cells from that of the byte at this position on.
    pub fn cells(self, ring: Memory, position: u64) -> Memory {
        ring.turned(rem(add(self.start, position), ring.len))
    }

    // What holds after every event: each unread byte stands in its cell, and each record holds what lies between its positions.
    pub fn checked(mut self) -> World {
        let cells = self.cells(self.ring, self.read);
        let unread = sub(self.written, self.read);
        let bytes = Memory::source(self.read, unread);
        let writer = self.writer.fill == sub(self.written, self.by_reader.heard);
        let reader = self.reader.fill == self.data();
        self.report.in_cells.same(cells, bytes, 0..unread);
        self.report.held.check(writer && reader);
        self.agreement_checked()
    }

    // Once each end has taken the other's present counter, both records are equal.
    fn agreement_checked(mut self) -> World {
        if self.by_writer.heard == self.written && self.by_reader.heard == self.read {
            let same = self.writer == self.reader;
            self.report.agreed.check(same);
        }
        self
    }

    // The report with this run in it.
    pub fn ended(self) -> Report {
        let mut report = self.report;
        let turns = self.written.checked_div(self.ring.len).unwrap_or(0);
        report.runs = add(report.runs, 1);
        report.turns = add(report.turns, turns);
        report
    }
}
