// Why a call refuses, with the Rust's names, and the paper's number and values of each.
ghost use Rattle.std.specs.Prelude.{◌≡◌};
ghost use Rattle.operations.specs.Refusal.{number_of, values_of, packed};

use crate::counter::Counter;
use crate::operation::OperationType;
use crate::values::Values;

#[derive(Clone, Copy)]
pub enum Refusal {
    // 1
    ZeroBufferLength,
    // 2
    BufferTooLarge {
        buf_len: u64,
    },
    // 3
    ItemsWrittenOutOfBounds {
        buf_len: u64,
        items_written: Counter,
    },
    // 4
    ItemsReadOutofBounds {
        buf_len: u64,
        items_read: Counter,
    },
    // 5
    DataAvailOutOfBounds {
        buf_len: u64,
        items_written: Counter,
        items_read: Counter,
    },
    // 6
    OperationTooLarge {
        op_type: OperationType,
        op_len: u64,
        max_len: u64,
    },
    // 7
    OperationTooLong {
        excess: u64,
    },
    // 8
    InconsistentOperationType,
    // 20
    HeldFillWrong,
}

impl Refusal {
    // Methods by these names, and no `From`: flat calls them, and the theorem `number_promised` speaks of them.
    pub fn number(self) -> u64
        ensures { result ≡ number_of self }
    {
        match self {
            Refusal::ZeroBufferLength => 1,
            Refusal::BufferTooLarge { .. } => 2,
            Refusal::ItemsWrittenOutOfBounds { .. } => 3,
            Refusal::ItemsReadOutofBounds { .. } => 4,
            Refusal::DataAvailOutOfBounds { .. } => 5,
            Refusal::OperationTooLarge { .. } => 6,
            Refusal::OperationTooLong { .. } => 7,
            Refusal::InconsistentOperationType => 8,
            Refusal::HeldFillWrong => 20,
        }
    }

    pub fn values(self) -> Values
        ensures { result ≡ packed (values_of self) }
    {
        match self {
            Refusal::ZeroBufferLength => Values::none(),
            Refusal::BufferTooLarge { buf_len } => Values::one(buf_len),
            Refusal::ItemsWrittenOutOfBounds {
                buf_len,
                items_written,
            } => Values::two(buf_len, items_written.0),
            Refusal::ItemsReadOutofBounds {
                buf_len,
                items_read,
            } => Values::two(buf_len, items_read.0),
            Refusal::DataAvailOutOfBounds {
                buf_len,
                items_written,
                items_read,
            } => Values::three(buf_len, items_written.0, items_read.0),
            Refusal::OperationTooLarge {
                op_type,
                op_len,
                max_len,
            } => Values::three(op_type.number(), op_len, max_len),
            Refusal::OperationTooLong { excess } => Values::one(excess),
            Refusal::InconsistentOperationType => Values::none(),
            Refusal::HeldFillWrong => Values::none(),
        }
    }
}
