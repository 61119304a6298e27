// Why a stream fails. Every call tests the failures that it is given.
ghost use Rattle.std.specs.Prelude.{◌≡◌};
ghost use Rattle.states.specs.State.{normalize_failure_of, towards_error_of};
ghost use Rattle.flat.specs.Failure.{failure_at, flat_failure_answer};

use flat::failure::{failure, flat_failure_answer};
use flat::structs::{Failure, FailureAnswer};

pub fn stripring_failure_normalize(f: Failure) -> FailureAnswer
    ensures { result ≡ flat_failure_answer (normalize_failure_of (failure_at f)) }
{
    flat_failure_answer(failure(f).normalize())
}

pub fn stripring_failure_advance_failure_towards_error(c: Failure, e: Failure) -> FailureAnswer
    ensures { result ≡ flat_failure_answer (towards_error_of (failure_at c) (failure_at e)) }
{
    flat_failure_answer(failure(c).advance_failure_towards_error(failure(e)))
}
