// What the planner answers: a plan in three numbers, how many runs were proposed, whether a plan from anywhere is one.
// An answer is a struct of C with fields of its own (the C interface): a `match` for each.
ghost use Rattle.std.specs.Prelude.{◌≡◌};
ghost use Rattle.flat.specs.Planner.{flat_outlined, flat_proposed, flat_verdict};

use crate::refusal::{flat_planner_refusal, no_refusal};
use crate::structs::{ProposeAnswer, Refusal, StripsAnswer};

pub fn flat_outlined(a: Result<planner::Strips, planner::Refusal>) -> StripsAnswer
    ensures { result ≡ flat_outlined a }
{
    match a {
        Ok(o) => StripsAnswer {
            count: o.count,
            height: o.height,
            last: o.last,
            ..Default::default()
        },
        Err(e) => StripsAnswer {
            refusal: flat_planner_refusal(e),
            ..Default::default()
        },
    }
}

pub fn flat_proposed(a: Result<u64, planner::Refusal>) -> ProposeAnswer
    ensures { result ≡ flat_proposed a }
{
    match a {
        Ok(count) => ProposeAnswer {
            count,
            ..Default::default()
        },
        Err(e) => ProposeAnswer {
            refusal: flat_planner_refusal(e),
            ..Default::default()
        },
    }
}

pub fn flat_verdict(a: Result<(), planner::Refusal>) -> Refusal
    ensures { result ≡ flat_verdict a }
{
    match a {
        Ok(()) => no_refusal(),
        Err(e) => flat_planner_refusal(e),
    }
}
