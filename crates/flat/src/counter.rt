// The answers that are one number.
// An answer is a struct of C with fields of its own (the C interface): a `match` for each.
ghost use Rattle.std.specs.Prelude.{◌≡◌};
ghost use Rattle.flat.specs.Counter.{flat_counter, flat_offset, flat_amount, bool_number, flat_bool};

use crate::refusal::flat_refusal;
use crate::structs::U64Answer;

pub fn flat_counter(a: Result<sched::Counter, sched::Refusal>) -> U64Answer
    ensures { result ≡ flat_counter a }
{
    flat_amount(a.map(|counter| counter.0))
}

pub fn flat_offset(a: Result<sched::Offset, sched::Refusal>) -> U64Answer
    ensures { result ≡ flat_offset a }
{
    flat_amount(a.map(|off| off.0))
}

pub fn flat_amount(a: Result<u64, sched::Refusal>) -> U64Answer
    ensures { result ≡ flat_amount a }
{
    match a {
        Ok(value) => U64Answer {
            value,
            ..Default::default()
        },
        Err(e) => U64Answer {
            refusal: flat_refusal(e),
            ..Default::default()
        },
    }
}

pub(crate) fn bool_number(b: bool) -> u64
    ensures { result ≡ bool_number b }
{
    u64::from(b)
}

pub fn flat_bool(a: Result<bool, sched::Refusal>) -> U64Answer
    ensures { result ≡ flat_bool a }
{
    flat_amount(a.map(bool_number))
}
