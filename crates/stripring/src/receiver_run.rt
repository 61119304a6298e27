// The receiver's calls over a whole run of the socket's answers.
// The parameters come one by one: the C interface.
ghost use Rattle.stripring.specs.Run.{FlatReadLeaves, FlatReadImplLeaves, FlatServiceLeaves, FlatShutdownLeaves};

use flat::receiver_record::{flat_ended, receiver_state};
use flat::structs::{EndedAnswer, Receiver};
use states::Answer;

pub fn stripring_receiver_read_with_fds(
    r: Receiver,
    ring: &[u8],
    dst: &mut [u8],
    max_new_fds: u64,
    answers: &[Answer],
) -> EndedAnswer
    ensures { FlatReadLeaves r ring.now dst.old max_new_fds answers.now result dst.new }
{
    flat_ended(driver::read_with_fds(receiver_state(r), ring, dst, max_new_fds, answers))
}

// A read that tells the end of the stream as failure 32.
pub fn stripring_receiver_read_with_fds_impl(
    r: Receiver,
    ring: &[u8],
    dst: &mut [u8],
    max_new_fds: u64,
    answers: &[Answer],
) -> EndedAnswer
    ensures { FlatReadImplLeaves r ring.now dst.old max_new_fds answers.now result dst.new }
{
    flat_ended(driver::read_with_fds_impl(receiver_state(r), ring, dst, max_new_fds, answers))
}

pub fn stripring_receiver_service_chunk_acknowledgements(
    r: Receiver,
    answers: &[Answer],
) -> EndedAnswer
    ensures { FlatServiceLeaves r answers.now result }
{
    flat_ended(driver::service_chunk_acknowledgements(receiver_state(r), answers))
}

pub fn stripring_receiver_shutdown(r: Receiver, answers: &[Answer]) -> EndedAnswer
    ensures { FlatShutdownLeaves r answers.now result }
{
    flat_ended(driver::shutdown(receiver_state(r), answers))
}
