// Operations that are put together.
// Kinds are numbers, and the parameters come one by one: the C interface.
ghost use Rattle.std.specs.Prelude.{◌≡◌};
ghost use Rattle.operations.specs.Operation.{operation_of, default_operation};
ghost use Rattle.flat.specs.Operation.{type_at, flat_operation};

use flat::operation::{flat_operation, operation_type};
use flat::structs::Operation;
use sched::{Offset, ScheduledOperation};

pub fn stripring_operation_new(typ: u64, off: u64, len: u64) -> Operation
    ensures { result ≡ flat_operation (operation_of (type_at typ) (record { 0 = off }) len) }
{
    flat_operation(ScheduledOperation::new(operation_type(typ), Offset(off), len))
}

pub fn stripring_operation_default() -> Operation
    ensures { result ≡ flat_operation default_operation }
{
    flat_operation(ScheduledOperation::default())
}
