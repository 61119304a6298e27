// The flat forms of refusals: the number, and the values, those that it lacks 0.
ghost use Rattle.std.specs.Prelude.{◌≡◌};
ghost use Rattle.flat.specs.Flat.{refusal_with, no_refusal, flat_refusal, flat_copy_refusal, flat_end_refusal, flat_receiver_refusal, flat_planner_refusal};

use crate::structs::Refusal;
use sched::Values;

// A number with its values.
fn refusal_with(number: u64, values: Values) -> Refusal
    ensures { result ≡ refusal_with number values }
{
    Refusal {
        number,
        a: values.a,
        b: values.b,
        c: values.c,
    }
}

pub fn no_refusal() -> Refusal
    ensures { result ≡ no_refusal }
{
    Refusal::default()
}

// Five enums: `number` and `values` are public methods of each, and a trait over them would stand beside these, not in their place.
pub(crate) fn flat_refusal(e: sched::Refusal) -> Refusal
    ensures { result ≡ flat_refusal e }
{
    refusal_with(e.number(), e.values())
}

pub(crate) fn flat_copy_refusal(e: copies::Refusal) -> Refusal
    ensures { result ≡ flat_copy_refusal e }
{
    refusal_with(e.number(), e.values())
}

pub fn flat_end_refusal(e: ends::Refusal) -> Refusal
    ensures { result ≡ flat_end_refusal e }
{
    refusal_with(e.number(), e.values())
}

pub(crate) fn flat_receiver_refusal(e: states::Refusal) -> Refusal
    ensures { result ≡ flat_receiver_refusal e }
{
    refusal_with(e.number(), e.values())
}

pub(crate) fn flat_planner_refusal(e: planner::Refusal) -> Refusal
    ensures { result ≡ flat_planner_refusal e }
{
    refusal_with(e.number(), e.values())
}
