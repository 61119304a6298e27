// A state of the receiver as numbers, and back.
// An answer is a struct of C with fields of its own (the C interface): a `match` for each.
ghost use Rattle.std.specs.Prelude.{◌≡◌};
ghost use Rattle.flat.specs.State.{state_at, flat_state, flat_state_answer};

use crate::failure::{failure, flat_failure};
use crate::refusal::flat_receiver_refusal;
use crate::structs::{State, StateAnswer};
use states::OperationalState;

// A number for a kind: the C interface.
#[tactic(auto, unfolding(crate::specs::State::state_at))]
pub fn state(s: State) -> OperationalState
    ensures { result ≡ state_at s }
{
    match s.kind {
        0 => OperationalState::Normal,
        1 => OperationalState::Draining(failure(s.failure)),
        _ => OperationalState::Terminated(failure(s.failure)),
    }
}

pub(crate) fn flat_state(s: OperationalState) -> State
    ensures { result ≡ flat_state s }
{
    match s {
        OperationalState::Normal => State::default(),
        OperationalState::Draining(f) => State {
            kind: 1,
            failure: flat_failure(f),
        },
        OperationalState::Terminated(f) => State {
            kind: 2,
            failure: flat_failure(f),
        },
    }
}

pub fn flat_state_answer(a: Result<OperationalState, states::Refusal>) -> StateAnswer
    ensures { result ≡ flat_state_answer a }
{
    match a {
        Ok(s) => StateAnswer {
            state: flat_state(s),
            ..Default::default()
        },
        Err(e) => StateAnswer {
            refusal: flat_receiver_refusal(e),
            ..Default::default()
        },
    }
}
