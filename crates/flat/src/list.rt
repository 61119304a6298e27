// The two-place list as a count and two operations, and back, and what the calls of a list answer.
// An answer is a struct of C with fields of its own (the C interface): a `match` for each.
ghost use Rattle.std.specs.Prelude.{◌≡◌};
ghost use Rattle.flat.specs.List.{operations_at, flat_operations, flat_operations_answer, flat_schedule, flat_starts, flat_starts_answer, flat_range, flat_ranges, flat_ranges_answer};

use crate::operation::{flat_operation, operation};
use crate::refusal::flat_refusal;
use crate::structs::{
    Operations, OperationsAnswer, Range, Ranges, RangesAnswer, ScheduleAnswer, StartsAnswer,
};
use sched::{AtMostTwo, CumulativeOffsets, OutsideRange, OutsideRanges, ScheduledOperations};

// A count beside two places: the C interface.
#[tactic(auto, unfolding(crate::specs::List::operations_at))]
pub fn operations(list: Operations) -> ScheduledOperations
    ensures { result ≡ operations_at list }
{
    match list.count {
        0 => AtMostTwo::None,
        1 => AtMostTwo::One(operation(list.first)),
        _ => AtMostTwo::Two(operation(list.first), operation(list.second)),
    }
}

// `flat_ranges` is its twin, of another struct of C.
fn flat_operations(list: ScheduledOperations) -> Operations
    ensures { result ≡ flat_operations list }
{
    match list {
        AtMostTwo::None => Operations::default(),
        AtMostTwo::One(a) => Operations {
            count: 1,
            first: flat_operation(a),
            ..Default::default()
        },
        AtMostTwo::Two(a, b) => Operations {
            count: 2,
            first: flat_operation(a),
            second: flat_operation(b),
        },
    }
}

pub fn flat_operations_answer(a: Result<ScheduledOperations, sched::Refusal>) -> OperationsAnswer
    ensures { result ≡ flat_operations_answer a }
{
    match a {
        Ok(list) => OperationsAnswer {
            operations: flat_operations(list),
            ..Default::default()
        },
        Err(e) => OperationsAnswer {
            refusal: flat_refusal(e),
            ..Default::default()
        },
    }
}

pub fn flat_schedule(a: Result<sched::Scheduled, sched::Refusal>) -> ScheduleAnswer
    ensures { result ≡ flat_schedule a }
{
    match a {
        Ok(scheduled) => ScheduleAnswer {
            operations: flat_operations(scheduled.operations),
            remainder: scheduled.remainder,
            ..Default::default()
        },
        Err(e) => ScheduleAnswer {
            refusal: flat_refusal(e),
            ..Default::default()
        },
    }
}

fn flat_starts(list: CumulativeOffsets) -> StartsAnswer
    ensures { result ≡ flat_starts list }
{
    match list {
        AtMostTwo::None => StartsAnswer::default(),
        AtMostTwo::One(a) => StartsAnswer {
            count: 1,
            first_start: a.start,
            first: flat_operation(a.op),
            ..Default::default()
        },
        AtMostTwo::Two(a, b) => StartsAnswer {
            count: 2,
            first_start: a.start,
            first: flat_operation(a.op),
            second_start: b.start,
            second: flat_operation(b.op),
            ..Default::default()
        },
    }
}

pub fn flat_starts_answer(a: Result<CumulativeOffsets, sched::Refusal>) -> StartsAnswer
    ensures { result ≡ flat_starts_answer a }
{
    match a {
        Ok(list) => flat_starts(list),
        Err(e) => StartsAnswer {
            refusal: flat_refusal(e),
            ..Default::default()
        },
    }
}

fn flat_range(a: OutsideRange) -> Range
    ensures { result ≡ flat_range a }
{
    Range {
        start: a.start,
        end: a.end,
        op: flat_operation(a.op),
    }
}

fn flat_ranges(list: OutsideRanges) -> Ranges
    ensures { result ≡ flat_ranges list }
{
    match list {
        AtMostTwo::None => Ranges::default(),
        AtMostTwo::One(a) => Ranges {
            count: 1,
            first: flat_range(a),
            ..Default::default()
        },
        AtMostTwo::Two(a, b) => Ranges {
            count: 2,
            first: flat_range(a),
            second: flat_range(b),
        },
    }
}

pub fn flat_ranges_answer(a: Result<OutsideRanges, sched::Refusal>) -> RangesAnswer
    ensures { result ≡ flat_ranges_answer a }
{
    match a {
        Ok(list) => RangesAnswer {
            ranges: flat_ranges(list),
            ..Default::default()
        },
        Err(e) => RangesAnswer {
            refusal: flat_refusal(e),
            ..Default::default()
        },
    }
}
