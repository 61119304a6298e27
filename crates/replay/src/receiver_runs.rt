// The receiver's calls over the socket's answers of a line.
ghost use Rattle.std.specs.Prelude.{◌≤◌};

use crate::line::{MOST, answers, at, behind};
use crate::receiver_list::state_at;
use crate::sched_inputs::scheduler_at;
use flat::structs::{EndedAnswer, Receiver};
use states::Answer;
use std::array;

// The most answers of a run. A line that says more is bad.
const MOST_ANSWERS: usize = 16;

// No ring and no destination of the list is longer.
const ROOM: usize = 64;

// Every byte of a destination before the call.
const BEFORE: u8 = 170;

// So many numbers stand before the bytes of an accepted call's destination.
const TOLD: usize = 20;

// A service or a shutdown, which looks at no ring.
pub fn without_ring<F: Fn(Receiver, &[Answer]) -> EndedAnswer>(line: &[u64], call: F) -> bool
    requires { F.IsAlwaysCallable call }
{
    let rest = behind(line, 11);
    let n = least(at(rest, 0), MOST_ANSWERS);
    let answers = answers_at(behind(rest, 1));
    let ended = call(receiver(line), &answers[..n]);
    is_recorded(behind(rest, 1 + 3 * n), ended, &[])
}

// Of each memory only the front, as long as the line says, is lent to the call. Behind them stand the most descriptors, and the answers
// with their count.
pub fn read<F: Fn(Receiver, &[u8], &mut [u8], u64, &[Answer]) -> EndedAnswer>(
    line: &[u64],
    call: F,
) -> bool
    requires { F.IsAlwaysCallable call }
{
    let ring = bytes_at(behind(line, 12));
    let ring_len = least(at(line, 11), ROOM);
    let rest = behind(line, 12 + ring_len);
    let mut dst = [BEFORE; ROOM];
    let dst_len = least(at(rest, 0), ROOM);
    let n = least(at(rest, 2), MOST_ANSWERS);
    let answers = answers_at(behind(rest, 3));
    let ended = call(
        receiver(line),
        &ring[..ring_len],
        &mut dst[..dst_len],
        at(rest, 1),
        &answers[..n],
    );
    is_recorded(behind(rest, 3 + 3 * n), ended, &dst[..dst_len])
}

// An accepted call is told with every byte of its destination, a refused one with none.
fn is_recorded(numbers: &[u64], a: EndedAnswer, dst: &[u8]) -> bool {
    if a.refusal.number != 0 {
        return is_told(numbers, a);
    }
    let told_len = TOLD.min(numbers.len());
    is_told(&numbers[..told_len], a) && are_bytes(&numbers[told_len..], dst)
}

fn is_told(numbers: &[u64], a: EndedAnswer) -> bool {
    answers(
        numbers,
        a.refusal,
        &[
            a.receiver.scheduler.buf_len,
            a.receiver.scheduler.items_written,
            a.receiver.scheduler.items_read,
            a.receiver.scheduler.fill,
            a.receiver.state.kind,
            a.receiver.state.failure.kind,
            a.receiver.state.failure.value,
            a.receiver.state.failure.needed,
            a.receiver.state.failure.room,
            a.receiver.pending_ack_count,
            a.receiver.notification_socket_shutdown_issued,
            a.outcome.kind,
            a.outcome.n,
            a.outcome.fds,
            a.outcome.failure.kind,
            a.outcome.failure.value,
            a.outcome.failure.needed,
            a.outcome.failure.room,
            a.used,
        ],
    )
}

// Whether the numbers are these bytes. What either lacks is 0.
fn are_bytes(numbers: &[u64], bytes: &[u8]) -> bool {
    (0..MOST).all(|i| at(numbers, i) == byte_at(bytes, i))
}

fn byte_at(bytes: &[u8], i: usize) -> u64 {
    bytes.get(i).map_or(0, |&byte| u64::from(byte))
}

// ---- what the calls take

fn receiver(line: &[u64]) -> Receiver {
    Receiver {
        scheduler: scheduler_at(line),
        state: state_at(behind(line, 4)),
        pending_ack_count: at(line, 9),
        notification_socket_shutdown_issued: at(line, 10),
    }
}

// No heap: what stands behind the ring is taken too, whatever it is, and never lent.
fn bytes_at(numbers: &[u64]) -> [u8; ROOM] {
    array::from_fn(|i| (at(numbers, i) % 256) as u8)
}

// No heap: what stands behind the answers is taken too, whatever it is, and never lent.
fn answers_at(numbers: &[u64]) -> [Answer; MOST_ANSWERS] {
    array::from_fn(|i| answer_at(behind(numbers, i.wrapping_mul(3))))
}

fn answer_at(numbers: &[u64]) -> Answer {
    Answer {
        kind: at(numbers, 0),
        value: at(numbers, 1),
        descriptors: at(numbers, 2),
    }
}

fn least(a: u64, most: usize) -> usize
    ensures { result ≤ most }
{
    (a as usize).min(most)
}
