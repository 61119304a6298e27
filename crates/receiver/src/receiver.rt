// The receiver's record, and what its calls come to.
ghost use Rattle.std.specs.Prelude.{◌≡◌};
ghost use Rattle.receiver.specs.Receiver.{read_outcome, done_outcome, failed_outcome, receiver_of, batch_in};

use sched::RingBufferScheduler;
use states::{Failure, OperationalState, Refusal, batch_of};

// The flag stays beside the state: a shutdown can have been issued in any of them, and C has both (bindings/stripring.h).
#[derive(Clone, Copy)]
pub struct ReceiverState {
    pub scheduler: RingBufferScheduler,
    pub state: OperationalState,
    pub pending_ack_count: u64,
    pub notification_socket_shutdown_issued: bool,
}

// What a call came to: bytes read, done, or a failure. No Result, whose Err says that a call is refused: one that fails is accepted.
#[derive(Clone, Copy)]
pub enum Came {
    Read(u64),
    Done,
    Failed(Failure),
}

// What every outcome carries beside what it came to: a count of descriptors.
#[derive(Clone, Copy, Default)]
pub struct Beside {
    pub fds: u64,
}

// What an accepted call answers.
#[derive(Clone, Copy)]
pub struct Outcome {
    pub came: Came,
    pub beside: Beside,
}

// The record after a call, what it answers and how many of the socket's answers it used.
#[derive(Clone, Copy)]
pub struct Ended {
    pub receiver: ReceiverState,
    pub outcome: Outcome,
    pub used: u64,
}

impl Outcome {
    pub(crate) fn read(n: u64, beside: Beside) -> Outcome
        ensures { result ≡ read_outcome n beside }
    {
        Outcome {
            came: Came::Read(n),
            beside,
        }
    }

    pub(crate) fn done() -> Outcome
        ensures { result ≡ done_outcome }
    {
        Outcome {
            came: Came::Done,
            beside: Beside::default(),
        }
    }

    // No From<Failure>: the name says, as `read` and `done` do, which outcome it is.
    pub(crate) fn failed(failure: Failure) -> Outcome
        ensures { result ≡ failed_outcome failure }
    {
        Outcome {
            came: Came::Failed(failure),
            beside: Beside::default(),
        }
    }
}

impl ReceiverState {
    // A batch of what is pending.
    pub(crate) fn batch(self) -> u64
        ensures { result ≡ batch_in self }
    {
        batch_of(self.pending_ack_count)
    }

    // The ring's bytes and the socket stay with the host.
    pub fn new(scheduler: RingBufferScheduler) -> Result<ReceiverState, Refusal>
        ensures { result ≡ receiver_of scheduler }
    {
        let scheduler = scheduler.demand_soundness()?;
        Ok(ReceiverState {
            scheduler,
            state: OperationalState::Normal,
            pending_ack_count: 0,
            notification_socket_shutdown_issued: false,
        })
    }
}
