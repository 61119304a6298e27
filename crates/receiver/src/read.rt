// The receiver's reads: a chunk's bytes are handed out, an announcement is awaited, and a failure ends the stream.
ghost use Rattle.std.specs.Prelude.{◌≡◌, length};
ghost use Rattle.receiver.specs.Receiver.{handed_in};
ghost use Rattle.receiver.specs.Call.{call, Counts, hand_out_call, failed_call, blocked_call, announced_call, after_receive, ByteSized, live_call, read_call};

use crate::admission::{Admitted, AdmittedCall};
use crate::announcement::Announced;
use crate::call::{Call, Ending, Phase, Wanted};
use crate::going::Going;
use crate::receiver::{Beside, Outcome, ReceiverState};
use sched::{OperationType, Sound};
use states::{Failure, OperationalState, Received, Refusal};

// `Counts`, that one acknowledgement more can be counted, is a fact of these and no type: one read tests it, and the record after that need
// not have it.
impl ReceiverState {
    // A chunk that is read to its end is acknowledged.
    fn handed_out(self, scheduler: Sound) -> ReceiverState
        requires { Counts self }
        ensures { result ≡ handed_in self scheduler }
    {
        let after = ReceiverState {
            scheduler: scheduler.scheduler,
            ..self
        };
        if scheduler.greatest(OperationType::Read) > 0 {
            return after;
        }
        ReceiverState {
            pending_ack_count: self.pending_ack_count + 1,
            ..after
        }
    }

    fn begins(self, phase: Phase) -> Call
        ensures { result ≡ call self self.scheduler phase }
    {
        Call {
            receiver: self,
            source: self.scheduler,
            phase,
        }
    }
}

impl Admitted {
    // The bytes themselves are copied by `source`: over a run of answers once the call is over, by a host with a real socket before its
    // first send, because an acknowledgement allows the other process to overwrite them.
    fn read_chunk_bytes(self, asked: u64, beside: Beside) -> Call
        requires { Counts self }
        ensures { result ≡ hand_out_call asked beside self }
    {
        let source = self.scheduler();
        let n = asked.min(source.greatest(OperationType::Read));
        Going {
            receiver: self
                .receiver
                .handed_out(source.moved(OperationType::Read, asked)),
            source: source.scheduler,
            ending: Ending {
                outcome: Outcome::read(n, beside),
                told: false,
            },
        }
        .service()
    }

    // In order: the empty destination, 13, the announcement if there is no data.
    fn read_live(self, wanted: Wanted) -> Result<Call, Refusal>
        ensures { result ≡ live_call self wanted }
    {
        let receiver = self.receiver;
        if wanted.dst_len == 0 {
            return Ok(receiver.begins(Phase::Finished(Outcome::read(0, Beside::default()))));
        }
        if receiver.pending_ack_count == u64::MAX {
            return Err(Refusal::PendingFull);
        }
        if self.scheduler().greatest(OperationType::Read) == 0 {
            return Ok(receiver.begins(Phase::Receive(wanted)));
        }
        Ok(self.read_chunk_bytes(wanted.dst_len, Beside::default()))
    }

    // A stream that is terminated answers its reason.
    pub(crate) fn read(self, wanted: Wanted) -> Result<Call, Refusal>
        ensures { result ≡ read_call self wanted }
    {
        let receiver = self.receiver;
        match receiver.state {
            OperationalState::Normal | OperationalState::Draining(_) => self.read_live(wanted),
            OperationalState::Terminated(f) => {
                Ok(receiver.begins(Phase::Finished(Outcome::failed(f))))
            }
        }
    }
}

impl Call {
    // The failure is answered, whatever comes of the shutdown.
    fn terminate_immediately(self, failure: Failure) -> Call
        ensures { result ≡ failed_call failure self.receiver self.source }
    {
        let ending = Ending {
            outcome: Outcome::failed(failure),
            told: false,
        };
        self.going(ending)
            .advance_operational_state_towards_termination(OperationalState::Terminated(failure))
    }

    // Nothing more comes while draining: the stream ends with its cached reason.
    fn advance_draining_to_terminated(self) -> Call
        ensures { result ≡ blocked_call self.receiver self.source }
    {
        let blocked = Failure::Io(Failure::WOULDBLOCK);
        match self.receiver.state {
            OperationalState::Normal => Call {
                phase: Phase::Finished(Outcome::failed(blocked)),
                ..self
            },
            OperationalState::Draining(f) => self.terminate_immediately(f),
            OperationalState::Terminated(_) => self.terminate_immediately(blocked),
        }
    }

    fn after_announcement(self, announced: Result<Announced, Failure>, wanted: Wanted) -> Call
        requires { Counts self.receiver }
        ensures { result ≡ announced_call announced wanted self.receiver self.source }
    {
        match announced {
            Ok(Announced { scheduler, beside }) => {
                let receiver = ReceiverState {
                    scheduler: scheduler.scheduler,
                    ..self.receiver
                };
                Admitted { receiver }.read_chunk_bytes(wanted.dst_len, beside)
            }
            Err(f) if f.is_errno(Failure::WOULDBLOCK) => self.advance_draining_to_terminated(),
            Err(f) => self.terminate_immediately(f),
        }
    }
}

impl AdmittedCall {
    // A failure becomes the call's outcome, and a misfit gets its place here: neither is an Err that ? would hand on.
    pub(crate) fn after_receive(
        self,
        ring: &[u8],
        received: Received,
        wanted: Wanted,
        place: u64,
    ) -> Result<Call, Refusal>
        requires { Counts self.receiver × ByteSized received (length ring.now) self.receiver }
        ensures { result ≡ after_receive self.receiver self.source ring.now received wanted place }
    {
        let call = self.call;
        let announced = match received {
            Received::Byte { byte, fds } => {
                let before = Announced {
                    scheduler: Sound {
                        scheduler: call.receiver.scheduler,
                    },
                    beside: Beside { fds },
                };
                before.recv_chunk_announcement(ring, byte)
            }
            Received::Failed(errno) => Err(Failure::Io(errno)),
            Received::Misfit => return Err(Refusal::Misfit { place }),
        };
        Ok(call.after_announcement(announced, wanted))
    }
}
