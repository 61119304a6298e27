// The receiver's record as numbers, and back, and what its calls over a run answer.
// An answer is a struct of C with fields of its own (the C interface): a `match` for each.
ghost use Rattle.std.specs.Prelude.{◌≡◌};
ghost use Rattle.flat.specs.Receiver.{yes_at, receiver_at, flat_receiver, flat_receiver_answer, flat_ended};

use crate::counter::bool_number;
use crate::outcome::flat_outcome;
use crate::refusal::flat_receiver_refusal;
use crate::scheduler::{flat_scheduler, scheduler};
use crate::state::{flat_state, state};
use crate::structs::{EndedAnswer, Receiver, ReceiverAnswer};
use receiver::{Ended, ReceiverState};

pub(crate) fn yes(number: u64) -> bool
    ensures { result ≡ yes_at number }
{
    number != 0
}

pub fn receiver_state(q: Receiver) -> ReceiverState
    ensures { result ≡ receiver_at q }
{
    ReceiverState {
        scheduler: scheduler(q.scheduler),
        state: state(q.state),
        pending_ack_count: q.pending_ack_count,
        notification_socket_shutdown_issued: yes(q.notification_socket_shutdown_issued),
    }
}

pub(crate) fn flat_receiver(q: ReceiverState) -> Receiver
    ensures { result ≡ flat_receiver q }
{
    Receiver {
        scheduler: flat_scheduler(q.scheduler),
        state: flat_state(q.state),
        pending_ack_count: q.pending_ack_count,
        notification_socket_shutdown_issued: bool_number(q.notification_socket_shutdown_issued),
    }
}

pub fn flat_receiver_answer(a: Result<ReceiverState, states::Refusal>) -> ReceiverAnswer
    ensures { result ≡ flat_receiver_answer a }
{
    match a {
        Ok(q) => ReceiverAnswer {
            receiver: flat_receiver(q),
            ..Default::default()
        },
        Err(e) => ReceiverAnswer {
            refusal: flat_receiver_refusal(e),
            ..Default::default()
        },
    }
}

pub fn flat_ended(a: Result<Ended, states::Refusal>) -> EndedAnswer
    ensures { result ≡ flat_ended a }
{
    match a {
        Ok(
            Ended {
                receiver,
                outcome,
                used,
            },
        ) => EndedAnswer {
            receiver: flat_receiver(receiver),
            outcome: flat_outcome(outcome),
            used,
            ..Default::default()
        },
        Err(e) => EndedAnswer {
            refusal: flat_receiver_refusal(e),
            ..Default::default()
        },
    }
}
