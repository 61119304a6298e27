// Why a stream fails. Every call tests the failures that it is given.
ghost use Rattle.std.specs.Prelude.{◌≡◌};
ghost use Rattle.states.specs.State.{normalize_failure_of, towards_error_of};
ghost use Rattle.flat.specs.Failure.{failure_at, flat_failure_answer};

use flat::structs::{Failure, FailureAnswer};

#[unsafe(no_mangle)]
pub extern "C" fn stripring_failure_normalize(failure: Failure) -> FailureAnswer
    ensures { result ≡ flat_failure_answer (normalize_failure_of (failure_at failure)) }
{
    stripring::failure::stripring_failure_normalize(failure)
}

#[unsafe(no_mangle)]
pub extern "C" fn stripring_failure_advance_failure_towards_error(
    failure: Failure,
    error: Failure,
) -> FailureAnswer
    ensures { result ≡ flat_failure_answer (towards_error_of (failure_at failure) (failure_at error)) }
{
    stripring::failure::stripring_failure_advance_failure_towards_error(failure, error)
}
