// Whether a line ends in an answer of sched.
// By hand: the structs are the C interface's, and each has its numbers in the order of the list.
use crate::line::{Recorded, answers, are};
use flat::structs::{
    Block, BlockAnswer, BlocksAnswer, Diff, NextAnswer, Operation, OperationsAnswer, RangesAnswer,
    ScheduleAnswer, SchedulerAnswer, StartsAnswer, U64Answer,
};

impl Recorded for U64Answer {
    fn is_recorded(self, numbers: &[u64]) -> bool {
        answers(numbers, self.refusal, &[self.value])
    }
}

impl Recorded for SchedulerAnswer {
    fn is_recorded(self, numbers: &[u64]) -> bool {
        let s = self.scheduler;
        answers(
            numbers,
            self.refusal,
            &[s.buf_len, s.items_written, s.items_read, s.fill],
        )
    }
}

impl Recorded for BlockAnswer {
    fn is_recorded(self, numbers: &[u64]) -> bool {
        let b = self.block;
        answers(numbers, self.refusal, &[b.typ, b.no, b.off, b.len])
    }
}

impl Recorded for BlocksAnswer {
    fn is_recorded(self, numbers: &[u64]) -> bool {
        let b = self.block_0;
        let c = self.block_1;
        let d = self.block_2;
        answers(
            numbers,
            self.refusal,
            &[
                b.typ, b.no, b.off, b.len, c.typ, c.no, c.off, c.len, d.typ, d.no, d.off, d.len,
            ],
        )
    }
}

impl Recorded for NextAnswer {
    fn is_recorded(self, numbers: &[u64]) -> bool {
        let o = self.operation;
        answers(
            numbers,
            self.refusal,
            &[self.some, o.typ, o.off, o.len, self.remainder],
        )
    }
}

impl Recorded for ScheduleAnswer {
    fn is_recorded(self, numbers: &[u64]) -> bool {
        let list = self.operations;
        let x = list.first;
        let y = list.second;
        answers(
            numbers,
            self.refusal,
            &[
                list.count,
                x.typ,
                x.off,
                x.len,
                y.typ,
                y.off,
                y.len,
                self.remainder,
            ],
        )
    }
}

impl Recorded for OperationsAnswer {
    fn is_recorded(self, numbers: &[u64]) -> bool {
        let list = self.operations;
        let x = list.first;
        let y = list.second;
        answers(
            numbers,
            self.refusal,
            &[list.count, x.typ, x.off, x.len, y.typ, y.off, y.len],
        )
    }
}

impl Recorded for StartsAnswer {
    fn is_recorded(self, numbers: &[u64]) -> bool {
        let x = self.first;
        let y = self.second;
        answers(
            numbers,
            self.refusal,
            &[
                self.count,
                self.first_start,
                x.typ,
                x.off,
                x.len,
                self.second_start,
                y.typ,
                y.off,
                y.len,
            ],
        )
    }
}

impl Recorded for RangesAnswer {
    fn is_recorded(self, numbers: &[u64]) -> bool {
        let list = self.ranges;
        let p = list.first;
        let q = list.second;
        let x = p.op;
        let y = q.op;
        answers(
            numbers,
            self.refusal,
            &[
                list.count, p.start, p.end, x.typ, x.off, x.len, q.start, q.end, y.typ, y.off,
                y.len,
            ],
        )
    }
}

// ---- what no call refuses

impl Recorded for u64 {
    fn is_recorded(self, numbers: &[u64]) -> bool {
        are(numbers, &[0, self])
    }
}

impl Recorded for Operation {
    fn is_recorded(self, numbers: &[u64]) -> bool {
        are(numbers, &[0, self.typ, self.off, self.len])
    }
}

impl Recorded for Block {
    fn is_recorded(self, numbers: &[u64]) -> bool {
        are(numbers, &[0, self.typ, self.no, self.off, self.len])
    }
}

impl Recorded for Diff {
    fn is_recorded(self, numbers: &[u64]) -> bool {
        are(numbers, &[0, self.different, self.old, self.new])
    }
}
