// What happened in all runs and what came of the checks.
use crate::memory::Memory;
use crate::notes::Note;
use crate::numbers::{add, sub};
use std::fmt;
use std::ops::Range;

// A promise: it was checked so often, and failed so often.
#[derive(Clone, Copy, Default)]
pub struct Promise {
    checks: u64,
    failures: u64,
}

impl Promise {
    pub fn check(&mut self, holds: bool) {
        self.checked(1, u64::from(!holds));
    }

    // The bytes of this range are the same in both.
    pub fn same(&mut self, a: Memory, b: Memory, range: Range<u64>) {
        let checks = sub(range.end, range.start);
        self.checked(checks, a.differing(&b, range));
    }

    fn checked(&mut self, checks: u64, failures: u64) {
        self.checks = add(self.checks, checks);
        self.failures = add(self.failures, failures);
    }
}

impl fmt::Display for Promise {
    fn fmt<W: fmt::Write>(&self, f: &mut fmt::Formatter<W>) -> fmt::Result {
        write!(f, "{} checks, {} failures", self.checks, self.failures)
    }
}

// Copies, each with its bytes.
#[derive(Clone, Copy, Default)]
pub struct Copies {
    calls: u64,
    bytes: u64,
}

impl Copies {
    pub fn count(&mut self, bytes: u64) {
        self.calls = add(self.calls, 1);
        self.bytes = add(self.bytes, bytes);
    }
}

// The counters of an end. A late one was taken after a newer one was sent.
#[derive(Clone, Copy, Default)]
pub struct Counters {
    sent: u64,
    taken: u64,
    lost: u64,
    late: u64,
    repeated: u64,
}

impl Counters {
    // A note is lost until it is taken.
    pub fn send(&mut self) {
        self.sent = add(self.sent, 1);
        self.lost = add(self.lost, 1);
    }

    // Of so many that were sent.
    pub fn take(&mut self, note: Note, sent: u64) {
        let again = u64::from(note.taken);
        let late = add(note.number, 1) < sent;
        self.taken = add(self.taken, 1);
        self.lost = add(self.lost, sub(again, 1));
        self.late = add(self.late, u64::from(late));
        self.repeated = add(self.repeated, again);
    }
}

impl fmt::Display for Counters {
    fn fmt<W: fmt::Write>(&self, f: &mut fmt::Formatter<W>) -> fmt::Result {
        write!(
            f,
            "{} sent, {} taken, {} lost",
            self.sent, self.taken, self.lost
        )?;
        write!(f, ", {} late, {} repeated", self.late, self.repeated)
    }
}

#[derive(Clone, Copy, Default)]
pub struct Report {
    pub runs: u64,
    pub writes: Copies,
    pub reads: Copies,
    // How often the writing ends came round their rings.
    pub turns: u64,
    pub by_writer: Counters,
    pub by_reader: Counters,
    // Calls that must be refused.
    pub ran_back: u64,
    pub wrong_memory: u64,
    pub accepted: Promise,
    // What an end's record allows is what its positions say, so that the next check does not rest on the record alone.
    pub views: Promise,
    pub exact: Promise,
    pub left_over: Promise,
    pub in_order: Promise,
    pub untouched: Promise,
    pub in_cells: Promise,
    pub only_own: Promise,
    pub agreed: Promise,
    pub numbers: Promise,
    pub left: Promise,
    pub lent: Promise,
    pub held: Promise,
}

impl Report {
    // The calls that are to be accepted and those that are to be refused.
    fn events(&self) -> u64 {
        add(self.accepted.checks, self.numbers.checks)
    }

    fn write_events<W: fmt::Write>(&self, f: &mut fmt::Formatter<W>) -> fmt::Result {
        writeln!(
            f,
            "{} runs, over rings of 1 to 9 bytes, from every counter",
            self.runs
        )?;
        writeln!(f, "{} events", self.events())?;
        writeln!(
            f,
            "{} writes of {} bytes",
            self.writes.calls, self.writes.bytes
        )?;
        writeln!(
            f,
            "{} reads of {} bytes",
            self.reads.calls, self.reads.bytes
        )?;
        writeln!(f, "{} turns of a ring", self.turns)?;
        writeln!(f, "written counters: {}", self.by_writer)?;
        writeln!(f, "read counters: {}", self.by_reader)?;
        writeln!(f, "{} counters that ran back", self.ran_back)?;
        writeln!(f, "{} memories of a wrong length", self.wrong_memory)
    }

    fn write_promises<W: fmt::Write>(&self, f: &mut fmt::Formatter<W>) -> fmt::Result {
        writeln!(f, "no call is refused: {}", self.accepted)?;
        writeln!(
            f,
            "each record allows what its positions say: {}",
            self.views
        )?;
        writeln!(f, "as many bytes as asked and allowed: {}", self.exact)?;
        writeln!(
            f,
            "moved and left over are what was asked: {}",
            self.left_over
        )?;
        writeln!(f, "bytes read are the next ones written: {}", self.in_order)?;
        writeln!(
            f,
            "the rest of a destination is untouched: {}",
            self.untouched
        )?;
        writeln!(f, "each unread byte stands in its cell: {}", self.in_cells)?;
        writeln!(f, "a write changes no other cell: {}", self.only_own)?;
        writeln!(f, "both records are equal: {}", self.agreed)?;
        writeln!(f, "refused with its number, 9 or 10: {}", self.numbers)?;
        writeln!(f, "a refusal touches no byte: {}", self.left)?;
        writeln!(f, "a lent scheduler makes the same copy: {}", self.lent)?;
        writeln!(
            f,
            "each record holds what lies between its positions: {}",
            self.held
        )
    }
}

impl fmt::Display for Report {
    fn fmt<W: fmt::Write>(&self, f: &mut fmt::Formatter<W>) -> fmt::Result {
        self.write_events(f)?;
        self.write_promises(f)
    }
}
