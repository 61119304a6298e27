// What is asked of the lines, and the answer to one of them.
ghost use Rattle.std.specs.Prelude.{◌≡◌};
ghost use Rattle.planline.specs.Plan.{plan_of, from_planner, from_scheduler};

use crate::ring::plan_ring;
use crate::strips::plan_strips;
use planner::{Refusal, Strips};
use sched::ScheduledOperations;

// Whom the lines ask: the scheduler of a ring, or the planner of an image's strips.
// An enum and no closure: what is promised of a run of calls is said once, of any question (`run_promised`).
#[derive(Clone, Copy)]
pub enum Question {
    Ring,
    Strips,
}

// What is printed behind `ok`.
#[derive(Clone, Copy)]
pub enum Plan {
    Operations(ScheduledOperations),
    Strips(Strips),
}

// Why a line has no plan: it is none of the grammar, or what it asks is refused.
#[derive(Clone, Copy)]
pub enum PlanError {
    Bad,
    Refused(Refusal),
}

impl From<planner::Refusal> for PlanError {
    ghost from_gives = { λ inner e. e ≡ from_planner inner };

    fn from(inner: planner::Refusal) -> PlanError {
        PlanError::Refused(inner)
    }
}

// What the scheduler refuses, the planner refuses with it.
impl From<sched::Refusal> for PlanError {
    ghost from_gives = { λ inner e. e ≡ from_scheduler inner };

    fn from(inner: sched::Refusal) -> PlanError {
        PlanError::Refused(Refusal::Scheduler(inner))
    }
}

// The answer to a line; bad before refused. Two parameters: a caller keeps the question, and the line changes.
#[tactic(auto, using(crate::proofs::PlanLaws::plan_long))]
pub fn plan_line(question: Question, line: &[u8]) -> Result<Plan, PlanError>
    ensures { result ≡ plan_of question line.now }
{
    if line.len() > 120 {
        return Err(PlanError::Bad);
    }
    match question {
        Question::Ring => plan_ring(line),
        Question::Strips => plan_strips(line),
    }
}
