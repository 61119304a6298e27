// A call in progress: a host begins one, does what it waits for on a socket of its own, and hands in the answer, until it is
// finished. An answer that is refused leaves the call as it was.
ghost use Rattle.std.specs.Prelude.{◌≡◌};
ghost use Rattle.receiver.specs.Call.{begin_read_of, begin_service_of, begin_shutdown_of, answered_of};
ghost use Rattle.flat.specs.Call.{call_at, flat_step};
ghost use Rattle.flat.specs.Receiver.{receiver_at};

use flat::structs::{Call, Receiver, StepAnswer};
use states::Answer;

#[unsafe(no_mangle)]
pub extern "C" fn stripring_call_begin_read(
    receiver: Receiver,
    ring_len: usize,
    max_new_fds: u64,
    dst_len: u64,
) -> StepAnswer
    ensures { result ≡ flat_step (begin_read_of (receiver_at receiver) ring_len max_new_fds dst_len) }
{
    stripring::call::stripring_call_begin_read(receiver, ring_len, max_new_fds, dst_len)
}

#[unsafe(no_mangle)]
pub extern "C" fn stripring_call_begin_service(receiver: Receiver) -> StepAnswer
    ensures { result ≡ flat_step (begin_service_of (receiver_at receiver)) }
{
    stripring::call::stripring_call_begin_service(receiver)
}

#[unsafe(no_mangle)]
pub extern "C" fn stripring_call_begin_shutdown(receiver: Receiver) -> StepAnswer
    ensures { result ≡ flat_step (begin_shutdown_of (receiver_at receiver)) }
{
    stripring::call::stripring_call_begin_shutdown(receiver)
}

// The call after the answer at this place, counted from 1.
#[unsafe(no_mangle)]
pub extern "C" fn stripring_call_answered(
    call: Call,
    ring: &[u8],
    answer: Answer,
    place: u64,
) -> StepAnswer
    ensures { result ≡ flat_step (answered_of (call_at call) ring.now answer place) }
{
    stripring::call::stripring_call_answered(call, ring, answer, place)
}
