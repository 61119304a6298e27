// Operations on the ring buffer.
ghost use Rattle.std.specs.Prelude.{◌≡◌};
ghost use Rattle.operations.specs.Operation.{operation_of, default_operation};
ghost use Rattle.operations.specs.Refusal.{type_number};

use crate::counter::Offset;

#[derive(Clone, Copy, PartialEq, Eq)]
pub enum OperationType {
    Read,
    Write,
}

impl OperationType {
    // Its number among a refusal's values. A call by this name, and no `From`: the theorem `type_number_promised` speaks of it.
    pub fn number(self) -> u64
        ensures { result ≡ type_number self }
    {
        match self {
            OperationType::Read => 0,
            OperationType::Write => 1,
        }
    }
}

// A slice of the ring buffer that is to be read or written. Its offset may be any number: registering does not look at it.
#[derive(Clone, Copy)]
pub struct ScheduledOperation {
    pub typ: OperationType,
    pub off: Offset,
    pub len: u64,
}

impl ScheduledOperation {
    pub fn new(typ: OperationType, off: Offset, len: u64) -> ScheduledOperation
        ensures { result ≡ operation_of typ off len }
    {
        ScheduledOperation { typ, off, len }
    }
}

// By hand: a derive would ask a Default of types and offsets, which the Rust has not.
impl Default for ScheduledOperation {
    ghost is_default = { λ o. o ≡ default_operation };

    fn default() -> ScheduledOperation {
        ScheduledOperation::new(OperationType::Read, Offset(0), 0)
    }
}
