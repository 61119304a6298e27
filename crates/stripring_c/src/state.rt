// The states of the receiver. Every call tests the states and failures that it is given.
// The flag `some` beside a failure: the C interface.
ghost use Rattle.std.specs.Prelude.{◌≡◌};
ghost use Rattle.states.specs.State.{failure_of, with_failure_of, with_potential_failure_of, normalize_of, advance_of};
ghost use Rattle.flat.specs.Failure.{failure_at, potential_failure_at, flat_potential_failure};
ghost use Rattle.flat.specs.State.{state_at, flat_state_answer};

use flat::structs::{Failure, PotentialFailureAnswer, State, StateAnswer};

#[unsafe(no_mangle)]
pub extern "C" fn stripring_state_failure(state: State) -> PotentialFailureAnswer
    ensures { result ≡ flat_potential_failure (failure_of (state_at state)) }
{
    stripring::state::stripring_state_failure(state)
}

#[unsafe(no_mangle)]
pub extern "C" fn stripring_state_with_failure(state: State, failure: Failure) -> StateAnswer
    ensures { result ≡ flat_state_answer (with_failure_of (state_at state) (failure_at failure)) }
{
    stripring::state::stripring_state_with_failure(state, failure)
}

// The failure is not looked at where `some` is 0.
#[unsafe(no_mangle)]
pub extern "C" fn stripring_state_with_potential_failure(
    state: State,
    some: u64,
    failure: Failure,
) -> StateAnswer
    ensures { result ≡ flat_state_answer (with_potential_failure_of (state_at state) (potential_failure_at some failure)) }
{
    stripring::state::stripring_state_with_potential_failure(state, some, failure)
}

#[unsafe(no_mangle)]
pub extern "C" fn stripring_state_normalize(state: State) -> StateAnswer
    ensures { result ≡ flat_state_answer (normalize_of (state_at state)) }
{
    stripring::state::stripring_state_normalize(state)
}

#[unsafe(no_mangle)]
pub extern "C" fn stripring_state_advance_state_towards_termination(
    state: State,
    to: State,
) -> StateAnswer
    ensures { result ≡ flat_state_answer (advance_of (state_at state) (state_at to)) }
{
    stripring::state::stripring_state_advance_state_towards_termination(state, to)
}
