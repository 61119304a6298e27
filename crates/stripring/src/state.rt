// The states of the receiver. Every call tests the states and failures that it is given.
// The flag `some` beside a failure: the C interface.
ghost use Rattle.std.specs.Prelude.{◌≡◌};
ghost use Rattle.states.specs.State.{failure_of, with_failure_of, with_potential_failure_of, normalize_of, advance_of};
ghost use Rattle.flat.specs.Failure.{failure_at, potential_failure_at, flat_potential_failure};
ghost use Rattle.flat.specs.State.{state_at, flat_state_answer};

use flat::failure::{failure, flat_potential_failure, potential_failure};
use flat::state::{flat_state_answer, state};
use flat::structs::{Failure, PotentialFailureAnswer, State, StateAnswer};

pub fn stripring_state_failure(s: State) -> PotentialFailureAnswer
    ensures { result ≡ flat_potential_failure (failure_of (state_at s)) }
{
    flat_potential_failure(state(s).failure())
}

pub fn stripring_state_with_failure(s: State, f: Failure) -> StateAnswer
    ensures { result ≡ flat_state_answer (with_failure_of (state_at s) (failure_at f)) }
{
    flat_state_answer(state(s).with_failure(failure(f)))
}

// The failure is not looked at where `some` is 0.
pub fn stripring_state_with_potential_failure(s: State, some: u64, f: Failure) -> StateAnswer
    ensures { result ≡ flat_state_answer (with_potential_failure_of (state_at s) (potential_failure_at some f)) }
{
    flat_state_answer(state(s).with_potential_failure(potential_failure(some, f)))
}

pub fn stripring_state_normalize(s: State) -> StateAnswer
    ensures { result ≡ flat_state_answer (normalize_of (state_at s)) }
{
    flat_state_answer(state(s).normalize())
}

pub fn stripring_state_advance_state_towards_termination(s: State, to: State) -> StateAnswer
    ensures { result ≡ flat_state_answer (advance_of (state_at s) (state_at to)) }
{
    flat_state_answer(state(s).advance_state_towards_termination(state(to)))
}
