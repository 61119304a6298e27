// A failure as numbers, and back: an errno, or a violation by its number and, of an overflow, the bytes needed and the room.
// An answer is a struct of C with fields of its own (the C interface): a `match` for each.
ghost use Rattle.std.specs.Prelude.{◌≡◌};
ghost use Rattle.flat.specs.Failure.{failure_at, potential_failure_at, an_errno, a_violation, flat_failure, flat_failure_answer, flat_potential_failure};

use crate::refusal::flat_receiver_refusal;
use crate::structs::{Failure, FailureAnswer, PotentialFailureAnswer};
use states::{Overflow, Violation};

// A number for a kind: the C interface.
#[tactic(auto, unfolding(crate::specs::Failure::failure_at))]
pub fn failure(f: Failure) -> states::Failure
    ensures { result ≡ failure_at f }
{
    match f.kind {
        0 => states::Failure::Io(f.value),
        _ => states::Failure::Protocol(Violation::of_number(
            f.value,
            Overflow {
                needed: f.needed,
                room: f.room,
            },
        )),
    }
}

// `some` beside a failure: the C interface.
#[tactic(auto, unfolding(crate::specs::Failure::potential_failure_at))]
pub fn potential_failure(some: u64, f: Failure) -> Option<states::Failure>
    ensures { result ≡ potential_failure_at some f }
{
    (some != 0).then(|| failure(f))
}

fn an_errno(value: u64) -> Failure
    ensures { result ≡ an_errno value }
{
    Failure {
        kind: 0,
        value,
        ..Default::default()
    }
}

fn a_violation(value: u64, o: Overflow) -> Failure
    ensures { result ≡ a_violation value o }
{
    Failure {
        kind: 1,
        value,
        needed: o.needed,
        room: o.room,
    }
}

pub(crate) fn flat_failure(f: states::Failure) -> Failure
    ensures { result ≡ flat_failure f }
{
    match f {
        states::Failure::Io(value) => an_errno(value),
        states::Failure::Protocol(v) => a_violation(v.number(), v.overflow()),
    }
}

pub fn flat_failure_answer(a: Result<states::Failure, states::Refusal>) -> FailureAnswer
    ensures { result ≡ flat_failure_answer a }
{
    match a {
        Ok(f) => FailureAnswer {
            failure: flat_failure(f),
            ..Default::default()
        },
        Err(e) => FailureAnswer {
            refusal: flat_receiver_refusal(e),
            ..Default::default()
        },
    }
}

pub fn flat_potential_failure(
    a: Result<Option<states::Failure>, states::Refusal>,
) -> PotentialFailureAnswer
    ensures { result ≡ flat_potential_failure a }
{
    match a {
        Ok(Some(f)) => PotentialFailureAnswer {
            some: 1,
            failure: flat_failure(f),
            ..Default::default()
        },
        Ok(None) => PotentialFailureAnswer::default(),
        Err(e) => PotentialFailureAnswer {
            refusal: flat_receiver_refusal(e),
            ..Default::default()
        },
    }
}
