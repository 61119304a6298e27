// The list of the calls of the receiver. A line: op, what it takes, its answer; the list's head says more.
use crate::line::{Recorded, answers, at, behind, ends};
use crate::receiver_runs::{read, without_ring};
use crate::sched_inputs::scheduler_at;
use flat::structs::{
    Failure, FailureAnswer, PotentialFailureAnswer, ReceiverAnswer, State, StateAnswer,
};
use stripring::receiver_run::{
    stripring_receiver_read_with_fds, stripring_receiver_read_with_fds_impl,
    stripring_receiver_service_chunk_acknowledgements, stripring_receiver_shutdown,
};
use stripring::{failure, receiver_record, state};

// The table of the calls: a match, since a closure for each call would be found by its op as an arm is. A row: op, where the answer stands
// on the line, the call.
pub fn agrees(line: &[u64]) -> bool {
    let s = state_at(behind(line, 1));
    let f = failure_at(behind(line, 1));
    match at(line, 0) {
        0 => ends(
            line,
            4,
            receiver_record::stripring_receiver_new(scheduler_at(line)),
        ),
        1 => ends(line, 6, state::stripring_state_failure(s)),
        2 => ends(
            line,
            10,
            state::stripring_state_with_failure(s, failure_at(behind(line, 6))),
        ),
        3 => ends(
            line,
            11,
            state::stripring_state_with_potential_failure(
                s,
                at(line, 6),
                failure_at(behind(line, 7)),
            ),
        ),
        4 => ends(line, 6, state::stripring_state_normalize(s)),
        5 => ends(
            line,
            11,
            state::stripring_state_advance_state_towards_termination(s, state_at(behind(line, 6))),
        ),
        6 => ends(line, 5, failure::stripring_failure_normalize(f)),
        7 => ends(
            line,
            9,
            failure::stripring_failure_advance_failure_towards_error(
                f,
                failure_at(behind(line, 5)),
            ),
        ),
        8 => read(line, stripring_receiver_read_with_fds),
        9 => read(line, stripring_receiver_read_with_fds_impl),
        10 => without_ring(line, stripring_receiver_service_chunk_acknowledgements),
        11 => without_ring(line, stripring_receiver_shutdown),
        _ => false,
    }
}

// ---- whether a line ends in an answer, by hand: the structs are the C interface's, and each has its numbers in the order of the list

impl Recorded for ReceiverAnswer {
    fn is_recorded(self, numbers: &[u64]) -> bool {
        let r = self.receiver;
        let s = r.scheduler;
        let state = r.state;
        let f = state.failure;
        answers(
            numbers,
            self.refusal,
            &[
                s.buf_len,
                s.items_written,
                s.items_read,
                s.fill,
                state.kind,
                f.kind,
                f.value,
                f.needed,
                f.room,
                r.pending_ack_count,
                r.notification_socket_shutdown_issued,
            ],
        )
    }
}

impl Recorded for PotentialFailureAnswer {
    fn is_recorded(self, numbers: &[u64]) -> bool {
        let f = self.failure;
        answers(
            numbers,
            self.refusal,
            &[self.some, f.kind, f.value, f.needed, f.room],
        )
    }
}

impl Recorded for StateAnswer {
    fn is_recorded(self, numbers: &[u64]) -> bool {
        let s = self.state;
        let f = s.failure;
        answers(
            numbers,
            self.refusal,
            &[s.kind, f.kind, f.value, f.needed, f.room],
        )
    }
}

impl Recorded for FailureAnswer {
    fn is_recorded(self, numbers: &[u64]) -> bool {
        let f = self.failure;
        answers(numbers, self.refusal, &[f.kind, f.value, f.needed, f.room])
    }
}

// ---- what the calls take of the front of these numbers

pub fn state_at(numbers: &[u64]) -> State {
    State {
        kind: at(numbers, 0),
        failure: failure_at(behind(numbers, 1)),
    }
}

fn failure_at(numbers: &[u64]) -> Failure {
    Failure {
        kind: at(numbers, 0),
        value: at(numbers, 1),
        needed: at(numbers, 2),
        room: at(numbers, 3),
    }
}
