// The receiver's calls over a whole run of the socket's answers.
ghost use Rattle.stripring.specs.Run.{FlatReadLeaves, FlatReadImplLeaves, FlatServiceLeaves, FlatShutdownLeaves};

use flat::structs::{EndedAnswer, Receiver};
use states::Answer;

#[unsafe(no_mangle)]
pub extern "C" fn stripring_receiver_read_with_fds(
    receiver: Receiver,
    ring: &[u8],
    dst: &mut [u8],
    max_new_fds: u64,
    answers: &[Answer],
) -> EndedAnswer
    ensures { FlatReadLeaves receiver ring.now dst.old max_new_fds answers.now result dst.new }
{
    stripring::receiver_run::stripring_receiver_read_with_fds(
        receiver,
        ring,
        dst,
        max_new_fds,
        answers,
    )
}

// A read that tells the end of the stream as failure 32.
#[unsafe(no_mangle)]
pub extern "C" fn stripring_receiver_read_with_fds_impl(
    receiver: Receiver,
    ring: &[u8],
    dst: &mut [u8],
    max_new_fds: u64,
    answers: &[Answer],
) -> EndedAnswer
    ensures { FlatReadImplLeaves receiver ring.now dst.old max_new_fds answers.now result dst.new }
{
    stripring::receiver_run::stripring_receiver_read_with_fds_impl(
        receiver,
        ring,
        dst,
        max_new_fds,
        answers,
    )
}

#[unsafe(no_mangle)]
pub extern "C" fn stripring_receiver_service_chunk_acknowledgements(
    receiver: Receiver,
    answers: &[Answer],
) -> EndedAnswer
    ensures { FlatServiceLeaves receiver answers.now result }
{
    stripring::receiver_run::stripring_receiver_service_chunk_acknowledgements(receiver, answers)
}

#[unsafe(no_mangle)]
pub extern "C" fn stripring_receiver_shutdown(receiver: Receiver, answers: &[Answer]) -> EndedAnswer
    ensures { FlatShutdownLeaves receiver answers.now result }
{
    stripring::receiver_run::stripring_receiver_shutdown(receiver, answers)
}
