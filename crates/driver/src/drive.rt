// A call over a run of answers: the driver hands in answer after answer, and stops when the call is over or the run is used up.
ghost use Rattle.std.specs.Prelude.{◌≡◌};
ghost use Rattle.driver.specs.Drive.{driven_of, ended_in, ended_of, delivery, delivery_of, end_of_stream_for};
ghost use Rattle.driver.specs.Run.{FetchLeaves};

use receiver::{Beside, Call, Came, Ended, Outcome, Phase};
use states::{Answer, Failure, Refusal};

// What a call has come to, and how many answers it used.
#[derive(Clone, Copy)]
pub struct Driven {
    pub step: Result<Call, Refusal>,
    pub used: u64,
}

// A run's `get`, by a u64 as all its counts.
#[tactic(auto, using(crate::proofs::Turns::got))]
pub fn fetch(answers: &[Answer], i: u64) -> Option<Answer>
    ensures { FetchLeaves answers.now i result }
{
    answers.get(i as usize).copied()
}

// A ring and answers are two, lent by two owners, and how many answers were used is told to the host.
// Each turn waits out the interruptions, and hands the first other answer to the call. A refusal throws the whole call away, so one that
// is refused waits for nothing more. The two loops are a form of the paper (docs/PAPER.md, "Forms").
#[tactic(auto, using(crate::proofs::Turns::less, crate::proofs::Turns::runs_out))]
pub(crate) fn drive(begun: Result<Call, Refusal>, ring: &[u8], answers: &[Answer]) -> Driven
    ensures { result ≡ driven_of begun ring.now answers.now }
{
    let mut step = begun;
    let mut used: u64 = 0;
    'batches: loop {
        let Ok(call) = step else {
            break 'batches;
        };
        if call.is_over() {
            break 'batches;
        }
        let answer = loop {
            let Some(a) = fetch(answers, used) else {
                break 'batches;
            };
            used += 1;
            if call.retries(a) {
                continue;
            }
            break a;
        };
        step = call.answered(ring, answer, used);
    }
    Driven { step, used }
}

// A call that still waits where the run is used up is refused with 11.
fn ended_in(call: Call, used: u64) -> Result<Ended, Refusal>
    ensures { result ≡ ended_in call used }
{
    match call.phase {
        Phase::Finished(outcome) => Ok(Ended {
            receiver: call.receiver,
            outcome,
            used,
        }),
        Phase::Receive(_) | Phase::Send { .. } | Phase::Shutdown(_) => Err(Refusal::AnswerMissing),
    }
}

impl Driven {
    pub(crate) fn ended(self) -> Result<Ended, Refusal>
        ensures { result ≡ ended_of self }
    {
        ended_in(self.step?, self.used)
    }

    // The destination is written last, by a read that is accepted.
    pub(crate) fn deliver(self, ring: &[u8], dst: &mut [u8]) -> Result<Ended, Refusal>
        ensures { delivery result dst.new ≡ delivery_of self ring.now dst.old }
    {
        let call = self.step?;
        let ended = ended_in(call, self.used)?;
        if let Came::Read(_) = ended.outcome.came {
            let _ = copies::read(call.source, ring, dst);
        }
        Ok(ended)
    }
}

// The end of the stream is told as a read of 0 bytes.
pub(crate) fn end_of_stream_for(outcome: Outcome) -> Outcome
    ensures { result ≡ end_of_stream_for outcome }
{
    match outcome.came {
        Came::Failed(f) if f.is_errno(Failure::SHUTDOWN) => Outcome {
            came: Came::Read(0),
            beside: Beside { fds: 0 },
        },
        _ => outcome,
    }
}
