// Why the planner refuses, with the paper's number and values of each.
ghost use Rattle.std.specs.Prelude.{◌≡◌};
ghost use Rattle.operations.specs.Refusal.{packed};
ghost use Rattle.planner.specs.Refusal.{number_of, values_of, from_scheduler};

use sched::Values;

#[derive(Clone, Copy)]
pub enum Refusal {
    // 1 and 2 of the planner's own calls; by `From`, any of the scheduler's
    Scheduler(sched::Refusal),
    // 14
    SizeOutOfBounds { rows: u64, row_bytes: u64 },
    // 15
    NoPlan { row_bytes: u64, buf_len: u64 },
    // 16
    EmptyRun { run: u64 },
    // 17: a gap, an overlap, or an end past the last row
    RunOutOfPlace { run: u64 },
    // 18
    RunTooLong { run: u64 },
    // 19
    RowsLeft { reached: u64 },
    // 39
    PlanTooShort { needed: u64, lent: u64 },
}

impl From<sched::Refusal> for Refusal {
    ghost from_gives = { λ inner e. e ≡ from_scheduler inner };

    fn from(inner: sched::Refusal) -> Refusal {
        Refusal::Scheduler(inner)
    }
}

impl Refusal {
    // A method and no `From`, which would not say of a number that it is the paper's.
    pub fn number(self) -> u64
        ensures { result ≡ number_of self }
    {
        match self {
            Refusal::Scheduler(e) => e.number(),
            Refusal::SizeOutOfBounds { .. } => 14,
            Refusal::NoPlan { .. } => 15,
            Refusal::EmptyRun { .. } => 16,
            Refusal::RunOutOfPlace { .. } => 17,
            Refusal::RunTooLong { .. } => 18,
            Refusal::RowsLeft { .. } => 19,
            Refusal::PlanTooShort { .. } => 39,
        }
    }

    pub fn values(self) -> Values
        ensures { result ≡ packed (values_of self) }
    {
        match self {
            Refusal::Scheduler(e) => e.values(),
            Refusal::SizeOutOfBounds { rows, row_bytes } => Values::two(rows, row_bytes),
            Refusal::NoPlan { row_bytes, buf_len } => Values::two(row_bytes, buf_len),
            Refusal::EmptyRun { run } => Values::one(run),
            Refusal::RunOutOfPlace { run } => Values::one(run),
            Refusal::RunTooLong { run } => Values::one(run),
            Refusal::RowsLeft { reached } => Values::one(reached),
            Refusal::PlanTooShort { needed, lent } => Values::two(needed, lent),
        }
    }
}
