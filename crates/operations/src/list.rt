// The two-place list of operations. Any list can be built by hand, so every call tests it anew: 7, then 8.
ghost use Rattle.std.specs.Prelude.{◌≡◌};
ghost use Rattle.operations.specs.List.{sound_two_of, sound_list_of, Summed, total_in, cumulative_length_of, cumulative_in, cumulative_offsets_of, outside_in, outside_ranges_of};

use crate::operation::{OperationType, ScheduledOperation};
use crate::refusal::Refusal;

// Cases and no Vec or slice: no heap, and each of the two has its meaning.
#[derive(Clone, Copy)]
pub enum AtMostTwo<T> {
    None,
    One(T),
    Two(T, T),
}

pub type ScheduledOperations = AtMostTwo<ScheduledOperation>;

pub type CumulativeOffsets = AtMostTwo<CumulativeOffset>;

pub type OutsideRanges = AtMostTwo<OutsideRange>;

// An operation, and where it starts in the linear buffer outside the ring.
#[derive(Clone, Copy)]
pub struct CumulativeOffset {
    pub start: u64,
    pub op: ScheduledOperation,
}

// An operation, and where it starts and ends in the linear buffer outside the ring.
#[derive(Clone, Copy)]
pub struct OutsideRange {
    pub start: u64,
    pub end: u64,
    pub op: ScheduledOperation,
}

// The sum of the lengths is compared with what 64 bits hold before it is made.
fn sound_two_of(
    a: ScheduledOperation,
    b: ScheduledOperation,
) -> Result<ScheduledOperations, Refusal>
    ensures { result ≡ sound_two_of a b }
{
    let room = u64::MAX - b.len;
    if a.len > room {
        return Err(Refusal::OperationTooLong {
            excess: a.len - room,
        });
    }
    if a.typ != b.typ {
        return Err(Refusal::InconsistentOperationType);
    }
    Ok(AtMostTwo::Two(a, b))
}

impl AtMostTwo<ScheduledOperation> {
    pub fn try_new(list: ScheduledOperations) -> Result<ScheduledOperations, Refusal>
        ensures { result ≡ sound_list_of list }
    {
        match list {
            AtMostTwo::None | AtMostTwo::One(_) => Ok(list),
            AtMostTwo::Two(a, b) => sound_two_of(a, b),
        }
    }

    pub fn container(self) -> Result<ScheduledOperations, Refusal>
        ensures { result ≡ sound_list_of self }
    {
        ScheduledOperations::try_new(self)
    }

    pub fn into_container(self) -> Result<ScheduledOperations, Refusal>
        ensures { result ≡ sound_list_of self }
    {
        ScheduledOperations::try_new(self)
    }

    pub fn cumulative_operation_length(self) -> Result<u64, Refusal>
        ensures { result ≡ cumulative_length_of self }
    {
        Ok(ScheduledOperations::try_new(self)?.total_in())
    }

    pub fn with_cumulative_offset(self) -> Result<CumulativeOffsets, Refusal>
        ensures { result ≡ cumulative_offsets_of self }
    {
        Ok(ScheduledOperations::try_new(self)?.cumulative_in())
    }

    pub fn with_outside_buffer_range(self) -> Result<OutsideRanges, Refusal>
        ensures { result ≡ outside_ranges_of self }
    {
        Ok(ScheduledOperations::try_new(self)?.outside_in())
    }

    // ---- of a list whose sum fits

    fn total_in(self) -> u64
        requires { Summed self }
        ensures { result ≡ total_in self }
    {
        match self {
            AtMostTwo::None => 0,
            AtMostTwo::One(a) => a.len,
            AtMostTwo::Two(a, b) => a.len + b.len,
        }
    }

    fn cumulative_in(self) -> CumulativeOffsets
        ensures { result ≡ cumulative_in self }
    {
        match self {
            AtMostTwo::None => AtMostTwo::None,
            AtMostTwo::One(a) => AtMostTwo::One(CumulativeOffset { start: 0, op: a }),
            AtMostTwo::Two(a, b) => AtMostTwo::Two(
                CumulativeOffset { start: 0, op: a },
                CumulativeOffset {
                    start: a.len,
                    op: b,
                },
            ),
        }
    }

    fn outside_in(self) -> OutsideRanges
        requires { Summed self }
        ensures { result ≡ outside_in self }
    {
        match self {
            AtMostTwo::None => AtMostTwo::None,
            AtMostTwo::One(a) => AtMostTwo::One(OutsideRange {
                start: 0,
                end: a.len,
                op: a,
            }),
            AtMostTwo::Two(a, b) => AtMostTwo::Two(
                OutsideRange {
                    start: 0,
                    end: a.len,
                    op: a,
                },
                OutsideRange {
                    start: a.len,
                    end: a.len + b.len,
                    op: b,
                },
            ),
        }
    }
}
