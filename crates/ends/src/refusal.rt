// Why an end refuses, with its number and values.
ghost use Rattle.std.specs.Prelude.{◌≡◌};
ghost use Rattle.operations.specs.Refusal.{packed};
ghost use Rattle.ends.specs.Refusal.{number_of, values_of, from_copy, from_scheduler};

use sched::Values;

// What a copy or the scheduler refuses, or 10.
#[derive(Clone, Copy)]
pub enum Refusal {
    Copy(copies::Refusal),
    RanBack,
}

// What a copy refuses is told as it is, and so is what the scheduler refuses.
impl From<copies::Refusal> for Refusal {
    ghost from_gives = { λ e r. r ≡ from_copy e };

    fn from(e: copies::Refusal) -> Refusal {
        Refusal::Copy(e)
    }
}

impl From<sched::Refusal> for Refusal {
    ghost from_gives = { λ e r. r ≡ from_scheduler e };

    fn from(e: sched::Refusal) -> Refusal {
        Refusal::Copy(copies::Refusal::Scheduler(e))
    }
}

// No derive knows the paper's numbers, and a trait over the refusals of both crates would be longer than two arms.
impl Refusal {
    pub fn number(self) -> u64
        ensures { result ≡ number_of self }
    {
        match self {
            Refusal::Copy(e) => e.number(),
            Refusal::RanBack => 10,
        }
    }

    pub fn values(self) -> Values
        ensures { result ≡ packed (values_of self) }
    {
        match self {
            Refusal::Copy(e) => e.values(),
            Refusal::RanBack => Values::none(),
        }
    }
}
