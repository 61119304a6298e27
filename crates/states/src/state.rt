// The states of the receiver, and the failures in them. Every state and failure that is handed in is tested: an errno is a number
// from 1 to 4095.
ghost use Rattle.std.specs.Prelude.{◌≡◌};
ghost use Rattle.states.specs.State.{header_overflow, body_overflow, violation_number, overflow_in, violation_at, fits_errno, fits_failure, fits_state, tested_state, failure_in, with_failure_in, is_errno, normalize_in, towards_error_in, advance_in, failure_of, with_failure_of, with_potential_failure_of, normalize_of, advance_of, normalize_failure_of, towards_error_of};

use crate::refusal::Refusal;
use sched::HEADER_LEN;

// How many bytes were needed, and the room for them.
#[derive(Clone, Copy, Default)]
pub struct Overflow {
    pub needed: u64,
    pub room: u64,
}

// The other process has broken the protocol. The two overflows are one in the Rust, `ControlOverflow`.
#[derive(Clone, Copy)]
pub enum Violation {
    InvalidChunkAnnouncement,
    HeaderOverflow(Overflow),
    UnknownHeader,
    InvalidChunkLength,
    BodyOverflow(Overflow),
}

impl Violation {
    // A header does not fit into a ring of this length.
    pub fn of_header(buf_len: u64) -> Violation
        ensures { result ≡ header_overflow buf_len }
    {
        Violation::HeaderOverflow(Overflow {
            needed: HEADER_LEN,
            room: buf_len,
        })
    }

    // A body of so many bytes does not fit behind the header, which leaves nothing of a ring that is shorter.
    #[tactic(auto, unfolding(crate::specs::State::behind_header))]
    pub fn of_body(buf_len: u64, len: u64) -> Violation
        ensures { result ≡ body_overflow buf_len len }
    {
        Violation::BodyOverflow(Overflow {
            needed: len,
            room: buf_len.saturating_sub(HEADER_LEN),
        })
    }

    // A method and no `From`, which would not say of a number that it is the paper's.
    pub fn number(self) -> u64
        ensures { result ≡ violation_number self }
    {
        match self {
            Violation::InvalidChunkAnnouncement => 1,
            Violation::HeaderOverflow(_) => 2,
            Violation::UnknownHeader => 3,
            Violation::InvalidChunkLength => 4,
            Violation::BodyOverflow(_) => 5,
        }
    }

    // Zeros where nothing overflowed, and no Option: its theorem `overflow_promised` and the C interface have both numbers of any violation.
    pub fn overflow(self) -> Overflow
        ensures { result ≡ overflow_in self }
    {
        match self {
            Violation::HeaderOverflow(o) | Violation::BodyOverflow(o) => o,
            _ => Overflow::default(),
        }
    }

    // No `TryFrom`: a host's number that no violation has is the fourth.
    #[tactic(auto, unfolding(crate::specs::State::violation_at))]
    pub fn of_number(number: u64, o: Overflow) -> Violation
        ensures { result ≡ violation_at number o }
    {
        match number {
            1 => Violation::InvalidChunkAnnouncement,
            2 => Violation::HeaderOverflow(o),
            3 => Violation::UnknownHeader,
            5 => Violation::BodyOverflow(o),
            _ => Violation::InvalidChunkLength,
        }
    }
}

// Why a stream fails: an errno by its Linux number, or a violation of the protocol.
#[derive(Clone, Copy)]
pub enum Failure {
    Io(u64),
    Protocol(Violation),
}

#[derive(Clone, Copy)]
pub enum OperationalState {
    Normal,
    Draining(Failure),
    Terminated(Failure),
}

// An errno is a number from 1 to this one.
const GREATEST_ERRNO: u64 = 4095;

#[tactic(auto, unfolding(crate::specs::State::fits_errno))]
pub(crate) fn fits_errno(e: u64) -> bool
    ensures { result ≡ fits_errno e }
{
    (1..=GREATEST_ERRNO).contains(&e)
}

// A stored errno that does not fit: 12 with place 0.
const MISFIT: Refusal = Refusal::Misfit { place: 0 };

// Errnos by their Linux numbers, and no enum: they come from the host and go to it (the C interface), any that fits.
impl Failure {
    pub const INTERRUPTED: u64 = 4;

    pub const IO: u64 = 5;

    pub const WOULDBLOCK: u64 = 11;

    pub const SHUTDOWN: u64 = 32;

    // WOULDBLOCK and EAGAIN are one number on Linux, so a failure is normal as it is.
    pub fn normalize(self) -> Result<Failure, Refusal>
        ensures { result ≡ normalize_failure_of self }
    {
        self.demand()
    }

    // The end of the stream gives way to a real error, and nothing else does.
    pub fn advance_failure_towards_error(self, error: Failure) -> Result<Failure, Refusal>
        ensures { result ≡ towards_error_of self error }
    {
        Ok(self.demand()?.towards_error(error.demand()?))
    }

    fn demand(self) -> Result<Failure, Refusal>
        ensures { result ≡ normalize_failure_of self }
    {
        self.fits().then_some(self).ok_or(MISFIT)
    }

    // A `match` and no `matches!`: of an errno the number is tested, of a violation nothing.
    fn fits(self) -> bool
        ensures { result ≡ fits_failure self }
    {
        match self {
            Failure::Io(e) => fits_errno(e),
            Failure::Protocol(_) => true,
        }
    }

    pub fn is_errno(self, errno: u64) -> bool
        ensures { result ≡ is_errno self errno }
    {
        matches!(self, Failure::Io(e) if e == errno)
    }

    #[tactic(auto, unfolding(crate::specs::State::towards_error_in))]
    fn towards_error(self, error: Failure) -> Failure
        ensures { result ≡ towards_error_in self error }
    {
        if self.is_errno(Failure::SHUTDOWN) {
            error
        } else {
            self
        }
    }
}

impl OperationalState {
    pub fn failure(self) -> Result<Option<Failure>, Refusal>
        ensures { result ≡ failure_of self }
    {
        Ok(self.demand()?.cached_failure())
    }

    pub fn with_failure(self, reason: Failure) -> Result<OperationalState, Refusal>
        ensures { result ≡ with_failure_of self reason }
    {
        Ok(self.demand()?.carrying(reason.demand()?))
    }

    pub fn with_potential_failure(
        self,
        reason: Option<Failure>,
    ) -> Result<OperationalState, Refusal>
        ensures { result ≡ with_potential_failure_of self reason }
    {
        let fitting = self.demand()?;
        match reason {
            Some(f) => fitting.with_failure(f),
            None => Ok(OperationalState::Normal),
        }
    }

    // Turns WOULDBLOCK into Normal.
    pub fn normalize(self) -> Result<OperationalState, Refusal>
        ensures { result ≡ normalize_of self }
    {
        Ok(self.demand()?.normal())
    }

    // Everything only gets more terminal here.
    pub fn advance_state_towards_termination(
        self,
        advanced: OperationalState,
    ) -> Result<OperationalState, Refusal>
        ensures { result ≡ advance_of self advanced }
    {
        Ok(self.demand()?.advance(advanced.demand()?))
    }

    fn demand(self) -> Result<OperationalState, Refusal>
        ensures { result ≡ tested_state (fits_state self) (Ok self) }
    {
        self.fits().then_some(self).ok_or(MISFIT)
    }

    pub fn fits(self) -> bool
        ensures { result ≡ fits_state self }
    {
        self.cached_failure().is_none_or(Failure::fits)
    }

    pub fn cached_failure(self) -> Option<Failure>
        ensures { result ≡ failure_in self }
    {
        match self {
            OperationalState::Normal => None,
            OperationalState::Draining(f) | OperationalState::Terminated(f) => Some(f),
        }
    }

    // The same state with another failure; Normal has none.
    fn carrying(self, reason: Failure) -> OperationalState
        ensures { result ≡ with_failure_in self reason }
    {
        match self {
            OperationalState::Normal => OperationalState::Normal,
            OperationalState::Draining(_) => OperationalState::Draining(reason),
            OperationalState::Terminated(_) => OperationalState::Terminated(reason),
        }
    }

    #[tactic(auto, unfolding(crate::specs::State::normalize_in))]
    fn normal(self) -> OperationalState
        ensures { result ≡ normalize_in self }
    {
        match self.cached_failure() {
            Some(f) if f.is_errno(Failure::WOULDBLOCK) => OperationalState::Normal,
            _ => self,
        }
    }

    pub fn advance(self, advanced: OperationalState) -> OperationalState
        ensures { result ≡ advance_in self advanced }
    {
        let to = advanced.normal();
        // Two matches and no pair, which would be made in memory (docs/DESIGN-PASS.md, "Tried and measured").
        match self.normal() {
            OperationalState::Normal => to,
            OperationalState::Draining(c) => match to.cached_failure() {
                Some(e) => to.carrying(c.towards_error(e)),
                None => OperationalState::Draining(c),
            },
            terminated => terminated,
        }
    }
}
