// A call in progress, as a value: the record so far, and what the call waits for or comes to. A host begins a call, does what it
// waits for, and hands in the answer, until the call is finished. An answer that is refused leaves the call as it was.
ghost use Rattle.std.specs.Prelude.{◌≡◌, length};
ghost use Rattle.receiver.specs.Call.{going, told_in, begin_read_of, begin_service_of, begin_shutdown_of, looks_at, resumed_of, Steps, stepped_of, answered_of, over_of, retries_of};

use crate::admission::{Admitted, AdmittedCall};
use crate::going::Going;
use crate::receiver::{Outcome, ReceiverState};
use sched::RingBufferScheduler;
use states::{Answer, Failure, OperationalState, Received, Refusal};

// How a call ends that still services acknowledgements or shuts down: with this outcome, and a failure on the way is told in its place
// or dropped. No enum of the two: C has `told` as a field (bindings/stripring.h), and the outcome stands there in both.
#[derive(Clone, Copy)]
pub struct Ending {
    pub outcome: Outcome,
    pub told: bool,
}

// What a read that waits for its announcement wants: at most so many descriptors, and so many bytes.
#[derive(Clone, Copy)]
pub struct Wanted {
    pub max_new_fds: u64,
    pub dst_len: u64,
}

// What the host does next, and then answers. A host keeps it and hands it back, as C does too: a value to match, and no closure.
#[derive(Clone, Copy)]
pub enum Phase {
    // it receives a byte from the socket, with at most so many descriptors as are wanted
    Receive(Wanted),
    // it copies the bytes of a read, if it has not, and sends so many zero bytes: acknowledgements
    Send { batch: u64, ending: Ending },
    // it copies likewise, and shuts the socket down
    Shutdown(Ending),
    // nothing: it copies likewise, and this is the call's answer
    Finished(Outcome),
}

// The record can be taken from a call at any time: it counts what was received, sent and shut down so far. flat::Call is this for C.
#[derive(Clone, Copy)]
pub struct Call {
    pub receiver: ReceiverState,
    // the scheduler that a read copies its bytes by
    pub source: RingBufferScheduler,
    pub phase: Phase,
}

impl Ending {
    // What is told of a failure.
    pub(crate) fn met(self, failure: Failure) -> Ending
        ensures { result ≡ told_in failure self }
    {
        if !self.told {
            return self;
        }
        Ending {
            outcome: Outcome::failed(failure),
            ..self
        }
    }
}

impl Call {
    // A read into a destination of `dst_len` bytes, over ring memory of `ring_len`.
    pub fn begin_read(
        receiver: ReceiverState,
        ring_len: usize,
        max_new_fds: u64,
        dst_len: u64,
    ) -> Result<Call, Refusal>
        ensures { result ≡ begin_read_of receiver ring_len max_new_fds dst_len }
    {
        receiver.admit(Some(ring_len))?;
        Admitted { receiver }.read(Wanted {
            max_new_fds,
            dst_len,
        })
    }

    pub fn begin_service(receiver: ReceiverState) -> Result<Call, Refusal>
        ensures { result ≡ begin_service_of receiver }
    {
        receiver.admit(None)?;
        Ok(receiver.telling().service())
    }

    pub fn begin_shutdown(receiver: ReceiverState) -> Result<Call, Refusal>
        ensures { result ≡ begin_shutdown_of receiver }
    {
        receiver.admit(None)?;
        let to = OperationalState::Draining(Failure::Io(Failure::SHUTDOWN));
        Ok(
            receiver
                .telling()
                .advance_operational_state_towards_termination(to),
        )
    }

    // The call after the answer at this place, counted from 1, to what it waits for. An interruption leaves it waiting; a call that is
    // over stays as it is. The record is tested anew, as by every call.
    pub fn answered(self, ring: &[u8], answer: Answer, place: u64) -> Result<Call, Refusal>
        ensures { result ≡ answered_of self ring.now answer place }
    {
        self.receiver.admit(self.looks_at(answer, ring.len()))?;
        let call = AdmittedCall { call: self }.resumed()?;
        AdmittedCall { call }.stepped(ring, answer, place)
    }

    // The ring is looked at where a byte was received, and only there.
    fn looks_at(self, answer: Answer, ring_len: usize) -> Option<usize>
        ensures { result ≡ looks_at self.phase answer ring_len }
    {
        let Phase::Receive(wanted) = self.phase else {
            return None;
        };
        matches!(answer.received(wanted.max_new_fds), Received::Byte { .. }).then_some(ring_len)
    }

    pub(crate) fn going(self, ending: Ending) -> Going
        ensures { result ≡ going self.receiver self.source ending }
    {
        Going {
            receiver: self.receiver,
            source: self.source,
            ending,
        }
    }

    // A call that is over waits for nothing more.
    pub fn is_over(self) -> bool
        ensures { result ≡ over_of self }
    {
        matches!(self.phase, Phase::Finished(_))
    }

    // An interruption is waited out by a receive and by a send; a shutdown is not tried again.
    pub fn retries(self, answer: Answer) -> bool
        ensures { result ≡ retries_of self answer }
    {
        matches!(self.phase, Phase::Receive(_) | Phase::Send { .. }) && answer.is_interruption()
    }
}

impl AdmittedCall {
    // What the rules make of this record in this phase: the call itself, unless a host made it up.
    fn resumed(self) -> Result<Call, Refusal>
        ensures { result ≡ resumed_of self }
    {
        let call = self.call;
        match call.phase {
            Phase::Receive(wanted) => Admitted {
                receiver: call.receiver,
            }
            .read(wanted),
            Phase::Send { ending, .. } => Ok(call.going(ending).service()),
            Phase::Shutdown(ending) => Ok(call.going(ending).issue_notification_socket_shutdown()),
            Phase::Finished(_) => Ok(call),
        }
    }

    // An interruption leaves it waiting. Ring, answer and place are no struct: `answered` would make one for this call alone.
    fn stepped(self, ring: &[u8], answer: Answer, place: u64) -> Result<Call, Refusal>
        requires { Steps self answer (length ring.now) }
        ensures { result ≡ stepped_of self ring.now answer place }
    {
        let call = self.call;
        if call.retries(answer) {
            return Ok(call);
        }
        match call.phase {
            Phase::Receive(wanted) => {
                self.after_receive(ring, answer.received(wanted.max_new_fds), wanted, place)
            }
            Phase::Send { ending, .. } => call.going(ending).after_send(answer, place),
            Phase::Shutdown(ending) => call.going(ending).after_shutdown(answer, place),
            Phase::Finished(_) => Ok(call),
        }
    }
}
