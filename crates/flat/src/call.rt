// A call in progress as a host holds it between two calls, and back: it comes back in as it went out.
// An answer is a struct of C with fields of its own (the C interface): a `match` for each.
ghost use Rattle.std.specs.Prelude.{◌≡◌};
ghost use Rattle.flat.specs.Call.{ending_at, flat_ending, wanted_at, phase_at, flat_phase, call_at, flat_call, flat_step};

use crate::counter::bool_number;
use crate::outcome::{flat_outcome, outcome};
use crate::receiver_record::{flat_receiver, receiver_state, yes};
use crate::refusal::flat_receiver_refusal;
use crate::scheduler::{flat_scheduler, scheduler};
use crate::structs::{Call, Ending, Phase, StepAnswer};

fn ending(e: Ending) -> receiver::Ending
    ensures { result ≡ ending_at e }
{
    receiver::Ending {
        outcome: outcome(e.outcome),
        told: yes(e.told),
    }
}

fn flat_ending(e: receiver::Ending) -> Ending
    ensures { result ≡ flat_ending e }
{
    Ending {
        told: bool_number(e.told),
        outcome: flat_outcome(e.outcome),
    }
}

fn wanted(p: Phase) -> receiver::Wanted
    ensures { result ≡ wanted_at p }
{
    receiver::Wanted {
        max_new_fds: p.max_new_fds,
        dst_len: p.dst_len,
    }
}

// A number for a kind: the C interface.
#[tactic(auto, unfolding(crate::specs::Call::phase_at))]
fn phase(p: Phase) -> receiver::Phase
    ensures { result ≡ phase_at p }
{
    match p.kind {
        0 => receiver::Phase::Receive(wanted(p)),
        1 => receiver::Phase::Send {
            batch: p.batch,
            ending: ending(p.ending),
        },
        2 => receiver::Phase::Shutdown(ending(p.ending)),
        _ => receiver::Phase::Finished(outcome(p.outcome)),
    }
}

fn flat_phase(p: receiver::Phase) -> Phase
    ensures { result ≡ flat_phase p }
{
    match p {
        receiver::Phase::Receive(wanted) => Phase {
            kind: 0,
            max_new_fds: wanted.max_new_fds,
            dst_len: wanted.dst_len,
            ..Default::default()
        },
        receiver::Phase::Send { batch, ending } => Phase {
            kind: 1,
            batch,
            ending: flat_ending(ending),
            ..Default::default()
        },
        receiver::Phase::Shutdown(ending) => Phase {
            kind: 2,
            ending: flat_ending(ending),
            ..Default::default()
        },
        receiver::Phase::Finished(o) => Phase {
            kind: 3,
            outcome: flat_outcome(o),
            ..Default::default()
        },
    }
}

pub fn call(c: Call) -> receiver::Call
    ensures { result ≡ call_at c }
{
    receiver::Call {
        receiver: receiver_state(c.receiver),
        source: scheduler(c.source),
        phase: phase(c.phase),
    }
}

fn flat_call(c: receiver::Call) -> Call
    ensures { result ≡ flat_call c }
{
    Call {
        receiver: flat_receiver(c.receiver),
        source: flat_scheduler(c.source),
        phase: flat_phase(c.phase),
    }
}

pub fn flat_step(step: Result<receiver::Call, states::Refusal>) -> StepAnswer
    ensures { result ≡ flat_step step }
{
    match step {
        Ok(c) => StepAnswer {
            call: flat_call(c),
            ..Default::default()
        },
        Err(e) => StepAnswer {
            refusal: flat_receiver_refusal(e),
            ..Default::default()
        },
    }
}
