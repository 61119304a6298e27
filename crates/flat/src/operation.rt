// An operation as three numbers, and back, and the next one, where there may be none.
// An answer is a struct of C with fields of its own (the C interface): a `match` for each.
ghost use Rattle.std.specs.Prelude.{◌≡◌};
ghost use Rattle.flat.specs.Operation.{type_at, operation_at, flat_operation, flat_next};

use crate::refusal::flat_refusal;
use crate::structs::{NextAnswer, Operation};
use sched::{Next, Offset, OperationType, ScheduledOperation};

// A number for a kind: the C interface.
#[tactic(auto, unfolding(crate::specs::Operation::type_at))]
pub fn operation_type(op: u64) -> OperationType
    ensures { result ≡ type_at op }
{
    match op {
        0 => OperationType::Read,
        _ => OperationType::Write,
    }
}

pub fn operation(o: Operation) -> ScheduledOperation
    ensures { result ≡ operation_at o }
{
    ScheduledOperation::new(operation_type(o.typ), Offset(o.off), o.len)
}

pub fn flat_operation(o: ScheduledOperation) -> Operation
    ensures { result ≡ flat_operation o }
{
    Operation {
        typ: o.typ.number(),
        off: o.off.0,
        len: o.len,
    }
}

pub fn flat_next(a: Result<Next, sched::Refusal>) -> NextAnswer
    ensures { result ≡ flat_next a }
{
    match a {
        Ok(
            Next {
                operation: Some(o),
                remainder,
            },
        ) => NextAnswer {
            some: 1,
            operation: flat_operation(o),
            remainder,
            ..Default::default()
        },
        Ok(
            Next {
                operation: None,
                remainder,
            },
        ) => NextAnswer {
            remainder,
            ..Default::default()
        },
        Err(e) => NextAnswer {
            refusal: flat_refusal(e),
            ..Default::default()
        },
    }
}
