// A call on its way to its ending: it services acknowledgements, or shuts the socket down, and ends.
ghost use Rattle.std.specs.Prelude.{◌≡◌};
ghost use Rattle.receiver.specs.Receiver.{done_outcome};
ghost use Rattle.receiver.specs.Call.{call, going, telling, told_in, finished_call, shutdown_call, advance_call, flush_call, service_call, drain_call, Covered, sent_call, unsent_call, after_send, after_shutdown};

use crate::call::{Call, Ending, Phase};
use crate::receiver::{Outcome, ReceiverState};
use sched::RingBufferScheduler;
use states::{Answer, Failure, OperationalState, Refusal, Sent, Shut};

// The record so far, the scheduler that a read copies its bytes by, and how the call ends.
#[derive(Clone, Copy)]
pub struct Going {
    pub receiver: ReceiverState,
    pub source: RingBufferScheduler,
    pub ending: Ending,
}

impl ReceiverState {
    // A call that tells what it comes to, and any failure on the way: no From, which would not say that it tells.
    pub(crate) fn telling(self) -> Going
        ensures { result ≡ going self self.scheduler (telling done_outcome) }
    {
        Going {
            receiver: self,
            source: self.scheduler,
            ending: Ending {
                outcome: Outcome::done(),
                told: true,
            },
        }
    }
}

impl Going {
    fn told(self, failure: Failure) -> Going
        ensures { result ≡ going self.receiver self.source (told_in failure self.ending) }
    {
        Going {
            ending: self.ending.met(failure),
            ..self
        }
    }

    fn waits(self, phase: Phase) -> Call
        ensures { result ≡ call self.receiver self.source phase }
    {
        Call {
            receiver: self.receiver,
            source: self.source,
            phase,
        }
    }

    pub(crate) fn finish(self) -> Call
        ensures { result ≡ finished_call self.receiver self.source self.ending.outcome }
    {
        self.waits(Phase::Finished(self.ending.outcome))
    }

    // A shutdown is asked for unless the state is Normal or one has succeeded before.
    pub(crate) fn issue_notification_socket_shutdown(self) -> Call
        ensures { result ≡ shutdown_call self.receiver self.source self.ending }
    {
        if matches!(self.receiver.state, OperationalState::Normal)
            || self.receiver.notification_socket_shutdown_issued
        {
            return self.finish();
        }
        self.waits(Phase::Shutdown(self.ending))
    }

    // The state advances even if the shutdown then fails.
    pub(crate) fn advance_operational_state_towards_termination(self, to: OperationalState) -> Call
        ensures { result ≡ advance_call to self.receiver self.source self.ending }
    {
        let receiver = ReceiverState {
            state: self.receiver.state.advance(to),
            ..self.receiver
        };
        Going { receiver, ..self }.issue_notification_socket_shutdown()
    }

    // The next batch, if anything is pending.
    #[tactic(auto, unfolding(crate::specs::Call::flush_call))]
    fn flush_chunk_acknowledgements(self) -> Call
        ensures { result ≡ flush_call self.receiver self.source self.ending }
    {
        if self.receiver.pending_ack_count == 0 {
            return self.finish();
        }
        self.waits(Phase::Send {
            batch: self.receiver.batch(),
            ending: self.ending,
        })
    }

    // A stored failure is answered, and nothing is sent.
    pub(crate) fn service(self) -> Call
        ensures { result ≡ service_call self.receiver self.source self.ending }
    {
        match self.receiver.state.cached_failure() {
            Some(f) => self.told(f).finish(),
            None => self.flush_chunk_acknowledgements(),
        }
    }

    // A failure drains with that reason.
    fn terminate_draining(self, failure: Failure) -> Call
        ensures { result ≡ drain_call failure self.receiver self.source self.ending }
    {
        self.told(failure)
            .advance_operational_state_towards_termination(OperationalState::Draining(failure))
    }

    // A send of nothing is failure 5.
    fn sent(self, n: u64) -> Call
        requires { Covered n self.receiver }
        ensures { result ≡ sent_call n self.receiver self.source self.ending }
    {
        if n == 0 {
            return self.terminate_draining(Failure::Io(Failure::IO));
        }
        let receiver = ReceiverState {
            pending_ack_count: self.receiver.pending_ack_count - n,
            ..self.receiver
        };
        Going { receiver, ..self }.flush_chunk_acknowledgements()
    }

    // A send that would block is tried again by a later call.
    fn unsent(self, errno: u64) -> Call
        ensures { result ≡ unsent_call errno self.receiver self.source self.ending }
    {
        if errno == Failure::WOULDBLOCK {
            return self.finish();
        }
        self.terminate_draining(Failure::Io(errno))
    }

    // What a send says is one of three, and ends the call in three ways; a misfit gets its place here, so no ? hands it on.
    #[tactic(auto, using(crate::proofs::CallLaws::sent_covered))]
    pub(crate) fn after_send(self, answer: Answer, place: u64) -> Result<Call, Refusal>
        ensures { result ≡ after_send self.receiver self.source self.ending answer place }
    {
        match answer.sent(self.receiver.batch()) {
            Sent::Sent(n) => Ok(self.sent(n)),
            Sent::Failed(errno) => Ok(self.unsent(errno)),
            Sent::Misfit => Err(Refusal::Misfit { place }),
        }
    }

    // A failed shutdown is not retried. A misfit gets its place here, as above.
    pub(crate) fn after_shutdown(self, answer: Answer, place: u64) -> Result<Call, Refusal>
        ensures { result ≡ after_shutdown self.receiver self.source self.ending answer place }
    {
        match answer.shut() {
            Shut::Done => {
                let receiver = ReceiverState {
                    notification_socket_shutdown_issued: true,
                    ..self.receiver
                };
                Ok(Going { receiver, ..self }.finish())
            }
            Shut::Failed(errno) => Ok(self.told(Failure::Io(errno)).finish()),
            Shut::Misfit => Err(Refusal::Misfit { place }),
        }
    }
}
