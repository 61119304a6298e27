// What the calls of sched take of a line.
// Functions and no `From`: the structs are those of flat, whose own a `From` of a slice would have to be.
use crate::line::{at, behind};
use flat::structs::{Diff, Operation, Operations, Scheduler};
use stripring::scheduler::stripring_scheduler_try_from_counters;

// A line has a scheduler's length and counters, and no fill.
pub fn scheduler_at(line: &[u64]) -> Scheduler {
    by_counters(at(line, 1), at(line, 2), at(line, 3))
}

// As a host makes it. Of counters that are refused the fill is 0: their number is told whatever it is.
fn by_counters(buf_len: u64, items_written: u64, items_read: u64) -> Scheduler {
    let a = stripring_scheduler_try_from_counters(buf_len, items_written, items_read);
    if a.refusal.number == 0 {
        return a.scheduler;
    }
    Scheduler {
        buf_len,
        items_written,
        items_read,
        fill: 0,
    }
}

pub fn operation_at(numbers: &[u64]) -> Operation {
    Operation {
        typ: at(numbers, 0),
        off: at(numbers, 1),
        len: at(numbers, 2),
    }
}

pub fn list_at(numbers: &[u64]) -> Operations {
    Operations {
        count: at(numbers, 0),
        first: operation_at(behind(numbers, 1)),
        second: operation_at(behind(numbers, 4)),
    }
}

pub fn diff_at(numbers: &[u64]) -> Diff {
    Diff {
        different: at(numbers, 0),
        old: at(numbers, 1),
        new: at(numbers, 2),
    }
}
