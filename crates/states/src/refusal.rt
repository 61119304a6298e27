// Why a call of the receiver refuses: what the scheduler and the copies refuse, or 11 to 13. A failure is another kind of outcome.
ghost use Rattle.std.specs.Prelude.{◌≡◌};
ghost use Rattle.operations.specs.Refusal.{packed};
ghost use Rattle.states.specs.Refusal.{number_of, values_of, from_copy, from_scheduler};

use sched::Values;

#[derive(Clone, Copy)]
pub enum Refusal {
    Copy(copies::Refusal),
    // 11
    AnswerMissing,
    // 12: a stored errno, place 0, or the answer at this place, counted from 1
    Misfit { place: u64 },
    // 13
    PendingFull,
}

impl Refusal {
    // A method and no `From`, which would not say of a number that it is the paper's.
    pub fn number(self) -> u64
        ensures { result ≡ number_of self }
    {
        match self {
            Refusal::Copy(e) => e.number(),
            Refusal::AnswerMissing => 11,
            Refusal::Misfit { .. } => 12,
            Refusal::PendingFull => 13,
        }
    }

    pub fn values(self) -> Values
        ensures { result ≡ packed (values_of self) }
    {
        match self {
            Refusal::Copy(e) => e.values(),
            Refusal::Misfit { place } => Values::one(place),
            Refusal::AnswerMissing | Refusal::PendingFull => Values::none(),
        }
    }
}

impl From<copies::Refusal> for Refusal {
    ghost from_gives = { λ inner e. e ≡ from_copy inner };

    fn from(inner: copies::Refusal) -> Refusal {
        Refusal::Copy(inner)
    }
}

// What the scheduler refuses, a copy refuses with it.
impl From<sched::Refusal> for Refusal {
    ghost from_gives = { λ inner e. e ≡ from_scheduler inner };

    fn from(inner: sched::Refusal) -> Refusal {
        Refusal::Copy(copies::Refusal::Scheduler(inner))
    }
}
