// A call in progress: a host begins one, does what it waits for on a socket of its own, and hands in the answer, until it is
// finished. An answer that is refused leaves the call as it was.
ghost use Rattle.std.specs.Prelude.{◌≡◌};
ghost use Rattle.receiver.specs.Call.{begin_read_of, begin_service_of, begin_shutdown_of, answered_of};
ghost use Rattle.flat.specs.Call.{call_at, flat_step};
ghost use Rattle.flat.specs.Receiver.{receiver_at};

use flat::call::{call, flat_step};
use flat::receiver_record::receiver_state;
use flat::structs::{Call, Receiver, StepAnswer};
use states::Answer;

pub fn stripring_call_begin_read(
    q: Receiver,
    ring_len: usize,
    max_new_fds: u64,
    dst_len: u64,
) -> StepAnswer
    ensures { result ≡ flat_step (begin_read_of (receiver_at q) ring_len max_new_fds dst_len) }
{
    flat_step(receiver::Call::begin_read(receiver_state(q), ring_len, max_new_fds, dst_len))
}

pub fn stripring_call_begin_service(q: Receiver) -> StepAnswer
    ensures { result ≡ flat_step (begin_service_of (receiver_at q)) }
{
    flat_step(receiver::Call::begin_service(receiver_state(q)))
}

pub fn stripring_call_begin_shutdown(q: Receiver) -> StepAnswer
    ensures { result ≡ flat_step (begin_shutdown_of (receiver_at q)) }
{
    flat_step(receiver::Call::begin_shutdown(receiver_state(q)))
}

// The call after the answer at this place, counted from 1.
pub fn stripring_call_answered(c: Call, ring: &[u8], answer: Answer, place: u64) -> StepAnswer
    ensures { result ≡ flat_step (answered_of (call_at c) ring.now answer place) }
{
    flat_step(call(c).answered(ring, answer, place))
}
