// Why a copy refuses, by number and values.
ghost use Rattle.std.specs.Prelude.{◌≡◌};
ghost use Rattle.operations.specs.Refusal.{packed};
ghost use Rattle.copies.specs.Refusal.{number_of, values_of, from_scheduler};

use sched::Values;

// Why a copy refuses: what the scheduler refuses, or 9.
#[derive(Clone, Copy)]
pub enum Refusal {
    Scheduler(sched::Refusal),
    RingMemory,
}

// What the scheduler refuses is told as it is.
impl From<sched::Refusal> for Refusal {
    ghost from_gives = { λ e r. r ≡ from_scheduler e };

    fn from(e: sched::Refusal) -> Refusal {
        Refusal::Scheduler(e)
    }
}

// No derive knows the paper's numbers, and a trait over the refusals of both crates would be longer than two arms.
impl Refusal {
    pub fn number(self) -> u64
        ensures { result ≡ number_of self }
    {
        match self {
            Refusal::Scheduler(e) => e.number(),
            Refusal::RingMemory => 9,
        }
    }

    pub fn values(self) -> Values
        ensures { result ≡ packed (values_of self) }
    {
        match self {
            Refusal::Scheduler(e) => e.values(),
            Refusal::RingMemory => Values::none(),
        }
    }
}
