// The calls over a whole run of the socket's answers: a call is begun, driven, and told. What they take one by one, and no struct of a ring
// and a run, is what the exports take (the C interface).
ghost use Rattle.std.specs.Prelude.{◌≡◌, []};
ghost use Rattle.driver.specs.Drive.{driven_of, ended_of};
ghost use Rattle.driver.specs.Run.{ServiceLeaves, ShutdownLeaves, ReadImplLeaves, ReadLeaves};

use crate::drive::{drive, end_of_stream_for};
use receiver::{Call, Ended, ReceiverState};
use states::{Answer, Refusal};

// A call that waits for no announcement looks at no ring: it is driven over an empty one.
fn drive_without_ring(begun: Result<Call, Refusal>, answers: &[Answer]) -> Result<Ended, Refusal>
    ensures { result ≡ ended_of (driven_of begun [] answers.now) }
{
    drive(begun, &[], answers).ended()
}

pub fn service_chunk_acknowledgements(
    receiver: ReceiverState,
    answers: &[Answer],
) -> Result<Ended, Refusal>
    ensures { ServiceLeaves receiver answers.now result }
{
    drive_without_ring(Call::begin_service(receiver), answers)
}

pub fn shutdown(receiver: ReceiverState, answers: &[Answer]) -> Result<Ended, Refusal>
    ensures { ShutdownLeaves receiver answers.now result }
{
    drive_without_ring(Call::begin_shutdown(receiver), answers)
}

// A read that tells the end of the stream as failure 32.
pub fn read_with_fds_impl(
    receiver: ReceiverState,
    ring: &[u8],
    dst: &mut [u8],
    max_new_fds: u64,
    answers: &[Answer],
) -> Result<Ended, Refusal>
    ensures { ReadImplLeaves receiver ring.now dst.old max_new_fds answers.now result dst.new }
{
    let begun = Call::begin_read(receiver, ring.len(), max_new_fds, dst.len() as u64);
    drive(begun, ring, answers).deliver(ring, dst)
}

pub fn read_with_fds(
    receiver: ReceiverState,
    ring: &[u8],
    dst: &mut [u8],
    max_new_fds: u64,
    answers: &[Answer],
) -> Result<Ended, Refusal>
    ensures { ReadLeaves receiver ring.now dst.old max_new_fds answers.now result dst.new }
{
    let ended = read_with_fds_impl(receiver, ring, dst, max_new_fds, answers)?;
    Ok(Ended {
        outcome: end_of_stream_for(ended.outcome),
        ..ended
    })
}
