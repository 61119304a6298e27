// The socket's answers: flat numbers, so that any bits of a host's are legal input, and what each says at its place.
ghost use Rattle.std.specs.Prelude.{◌≡◌};
ghost use Rattle.states.specs.Answer.{batch_of, kind_of, interrupted_of, received_of, sent_of, shut_of};

use crate::state::{Failure, fits_errno};

// Numbers that a kind does not use are not looked at.
#[repr(C)]
#[derive(Clone, Copy)]
pub struct Answer {
    // the number of a `Kind`, and no `Kind`: a host writes any bits (the C interface)
    pub kind: u64,
    pub value: u64,
    pub descriptors: u64,
}

// What a kind's number stands for.
#[derive(Clone, Copy)]
enum Kind {
    // 0: received a byte, `value`, with a count of descriptors
    Byte,
    // 1
    Closed,
    // 2: failed with the errno `value`
    Failed,
    // 3: sent `value` bytes
    Sent,
    // 4
    Done,
}

// What the answer to a receive says; closed is failure 32. Three cases, here and below, and no Result: a failure is told to the stream, a
// misfit refuses the call.
#[derive(Clone, Copy)]
pub enum Received {
    Byte { byte: u64, fds: u64 },
    Failed(u64),
    Misfit,
}

#[derive(Clone, Copy)]
pub enum Sent {
    Sent(u64),
    Failed(u64),
    Misfit,
}

#[derive(Clone, Copy)]
pub enum Shut {
    Done,
    Failed(u64),
    Misfit,
}

const GREATEST_BATCH: u64 = 128;

// How many acknowledgements a send is asked for: all that are pending, or 128 of them.
pub fn batch_of(pending: u64) -> u64
    ensures { result ≡ batch_of pending }
{
    pending.min(GREATEST_BATCH)
}

impl Answer {
    // None: a number that no kind has.
    #[tactic(auto, unfolding(crate::specs::Answer::kind_of))]
    fn kind(self) -> Option<Kind>
        ensures { result ≡ kind_of self }
    {
        match self.kind {
            0 => Some(Kind::Byte),
            1 => Some(Kind::Closed),
            2 => Some(Kind::Failed),
            3 => Some(Kind::Sent),
            4 => Some(Kind::Done),
            _ => None,
        }
    }

    // By its number and not by `kind`, which tells five apart: a run of interruptions took twice the time (docs/DESIGN-PASS.md, "Tried and
    // measured").
    #[tactic(auto, unfolding(crate::specs::Answer::interrupted_of))]
    pub fn is_interruption(self) -> bool
        ensures { result ≡ interrupted_of self }
    {
        self.kind == 2 && self.value == Failure::INTERRUPTED
    }

    #[tactic(auto, unfolding(crate::specs::Answer::received_of, crate::specs::Answer::kind_of))]
    pub fn received(self, max_new_fds: u64) -> Received
        ensures { result ≡ received_of max_new_fds self }
    {
        match self.kind() {
            Some(Kind::Byte) if self.value <= 255 && self.descriptors <= max_new_fds => {
                Received::Byte {
                    byte: self.value,
                    fds: self.descriptors,
                }
            }
            Some(Kind::Closed) => Received::Failed(Failure::SHUTDOWN),
            Some(Kind::Failed) if fits_errno(self.value) => Received::Failed(self.value),
            _ => Received::Misfit,
        }
    }

    #[tactic(auto, unfolding(crate::specs::Answer::sent_of, crate::specs::Answer::kind_of))]
    pub fn sent(self, batch: u64) -> Sent
        ensures { result ≡ sent_of batch self }
    {
        match self.kind() {
            Some(Kind::Sent) if self.value <= batch => Sent::Sent(self.value),
            Some(Kind::Failed) if fits_errno(self.value) => Sent::Failed(self.value),
            _ => Sent::Misfit,
        }
    }

    #[tactic(auto, unfolding(crate::specs::Answer::shut_of, crate::specs::Answer::kind_of))]
    pub fn shut(self) -> Shut
        ensures { result ≡ shut_of self }
    {
        match self.kind() {
            Some(Kind::Done) => Shut::Done,
            Some(Kind::Failed) if fits_errno(self.value) => Shut::Failed(self.value),
            _ => Shut::Misfit,
        }
    }
}
