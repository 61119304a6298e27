// The calls of the scheduler that make it, count and register. Every one tests the scheduler that it is given anew.
// Kinds are numbers, and the parameters come one by one: the C interface.
ghost use Rattle.std.specs.Prelude.{◌≡◌, ◌^◌};
ghost use Rattle.sched.specs.Scheduler.{scheduler_of, sound_of, with_counter_of, buf_len_of, counter_answer_of, offset_answer_of, greatest_of, is_zero_from, is_positive_from, fill_state_of, register_of, register_list_of};
ghost use Rattle.flat.specs.Block.{flat_fill_state};
ghost use Rattle.flat.specs.Counter.{flat_counter, flat_offset, flat_amount, flat_bool};
ghost use Rattle.flat.specs.List.{operations_at};
ghost use Rattle.flat.specs.Operation.{type_at, operation_at};
ghost use Rattle.flat.specs.Scheduler.{scheduler_at, flat_checked};

use flat::block::flat_fill_state;
use flat::counter::{flat_amount, flat_bool, flat_counter, flat_offset};
use flat::list::operations;
use flat::operation::{operation, operation_type};
use flat::scheduler::{flat_checked, scheduler};
use flat::structs::{Operation, Operations, Scheduler, SchedulerAnswer, U64Answer};
use sched::{Counter, OperationType, RingBufferScheduler};

// ---- making one

pub fn stripring_scheduler_max_buf_len() -> u64
    ensures { result ≡ 2 ^ 63 }
{
    RingBufferScheduler::MAX_BUF_LEN
}

pub fn stripring_scheduler_try_new(buf_len: u64) -> SchedulerAnswer
    ensures { result ≡ flat_checked (sound_of (scheduler_of buf_len (record { 0 = 0 }) (record { 0 = 0 }))) }
{
    flat_checked(RingBufferScheduler::try_new(buf_len))
}

pub fn stripring_scheduler_try_from_counters(
    buf_len: u64,
    items_written: u64,
    items_read: u64,
) -> SchedulerAnswer
    ensures { result ≡ flat_checked (sound_of (scheduler_of buf_len (record { 0 = items_written }) (record { 0 = items_read }))) }
{
    flat_checked(RingBufferScheduler::try_from_counters(
        buf_len,
        Counter(items_written),
        Counter(items_read),
    ))
}

pub fn stripring_scheduler_try_with_counter(s: Scheduler, op: u64, counter: u64) -> SchedulerAnswer
    ensures { result ≡ flat_checked (with_counter_of (scheduler_at s) (type_at op) (record { 0 = counter })) }
{
    flat_checked(scheduler(s).try_with_counter(operation_type(op), Counter(counter)))
}

pub fn stripring_scheduler_demand_soundness(s: Scheduler) -> SchedulerAnswer
    ensures { result ≡ flat_checked (sound_of (scheduler_at s)) }
{
    flat_checked(scheduler(s).demand_soundness())
}

// ---- registering what was moved

pub fn stripring_scheduler_try_register_read(s: Scheduler, len: u64) -> SchedulerAnswer
    ensures { result ≡ flat_checked (register_of (scheduler_at s) OperationType.Read len) }
{
    flat_checked(scheduler(s).try_register_read(len))
}

pub fn stripring_scheduler_try_register_write(s: Scheduler, len: u64) -> SchedulerAnswer
    ensures { result ≡ flat_checked (register_of (scheduler_at s) OperationType.Write len) }
{
    flat_checked(scheduler(s).try_register_write(len))
}

pub fn stripring_scheduler_try_register_operation_manually(
    s: Scheduler,
    op: u64,
    len: u64,
) -> SchedulerAnswer
    ensures { result ≡ flat_checked (register_of (scheduler_at s) (type_at op) len) }
{
    flat_checked(scheduler(s).try_register_operation_manually(operation_type(op), len))
}

pub fn stripring_scheduler_try_register_operation(s: Scheduler, o: Operation) -> SchedulerAnswer
    ensures { result ≡ flat_checked (register_of (scheduler_at s) (operation_at o).typ (operation_at o).len) }
{
    flat_checked(scheduler(s).try_register_operation(operation(o)))
}

pub fn stripring_scheduler_try_register_operations(
    s: Scheduler,
    list: Operations,
) -> SchedulerAnswer
    ensures { result ≡ flat_checked (register_list_of (scheduler_at s) (operations_at list)) }
{
    flat_checked(scheduler(s).try_register_operations(operations(list)))
}

// ---- counters, offsets, data and space

pub fn stripring_scheduler_items_read(s: Scheduler) -> U64Answer
    ensures { result ≡ flat_counter (counter_answer_of (scheduler_at s) OperationType.Read) }
{
    flat_counter(scheduler(s).items_read())
}

pub fn stripring_scheduler_items_written(s: Scheduler) -> U64Answer
    ensures { result ≡ flat_counter (counter_answer_of (scheduler_at s) OperationType.Write) }
{
    flat_counter(scheduler(s).items_written())
}

pub fn stripring_scheduler_operation_counter(s: Scheduler, op: u64) -> U64Answer
    ensures { result ≡ flat_counter (counter_answer_of (scheduler_at s) (type_at op)) }
{
    flat_counter(scheduler(s).operation_counter(operation_type(op)))
}

pub fn stripring_scheduler_read_off(s: Scheduler) -> U64Answer
    ensures { result ≡ flat_offset (offset_answer_of (scheduler_at s) OperationType.Read) }
{
    flat_offset(scheduler(s).read_off())
}

pub fn stripring_scheduler_write_off(s: Scheduler) -> U64Answer
    ensures { result ≡ flat_offset (offset_answer_of (scheduler_at s) OperationType.Write) }
{
    flat_offset(scheduler(s).write_off())
}

pub fn stripring_scheduler_operation_offset(s: Scheduler, op: u64) -> U64Answer
    ensures { result ≡ flat_offset (offset_answer_of (scheduler_at s) (type_at op)) }
{
    flat_offset(scheduler(s).operation_offset(operation_type(op)))
}

pub fn stripring_scheduler_buf_len(s: Scheduler) -> U64Answer
    ensures { result ≡ flat_amount (buf_len_of (scheduler_at s)) }
{
    flat_amount(scheduler(s).buf_len())
}

pub fn stripring_scheduler_is_zero_sized(s: Scheduler) -> U64Answer
    ensures { result ≡ flat_bool (is_zero_from (buf_len_of (scheduler_at s))) }
{
    flat_bool(scheduler(s).is_zero_sized())
}

pub fn stripring_scheduler_data_avail(s: Scheduler) -> U64Answer
    ensures { result ≡ flat_amount (greatest_of (scheduler_at s) OperationType.Read) }
{
    flat_amount(scheduler(s).data_avail())
}

pub fn stripring_scheduler_space_avail(s: Scheduler) -> U64Answer
    ensures { result ≡ flat_amount (greatest_of (scheduler_at s) OperationType.Write) }
{
    flat_amount(scheduler(s).space_avail())
}

pub fn stripring_scheduler_max_operation_len(s: Scheduler, op: u64) -> U64Answer
    ensures { result ≡ flat_amount (greatest_of (scheduler_at s) (type_at op)) }
{
    flat_amount(scheduler(s).max_operation_len(operation_type(op)))
}

pub fn stripring_scheduler_fill_state(s: Scheduler) -> U64Answer
    ensures { result ≡ flat_fill_state (fill_state_of (scheduler_at s)) }
{
    flat_fill_state(scheduler(s).fill_state())
}

pub fn stripring_scheduler_is_empty(s: Scheduler) -> U64Answer
    ensures { result ≡ flat_bool (is_zero_from (greatest_of (scheduler_at s) OperationType.Read)) }
{
    flat_bool(scheduler(s).is_empty())
}

pub fn stripring_scheduler_is_full(s: Scheduler) -> U64Answer
    ensures { result ≡ flat_bool (is_zero_from (greatest_of (scheduler_at s) OperationType.Write)) }
{
    flat_bool(scheduler(s).is_full())
}

pub fn stripring_scheduler_is_nonempty(s: Scheduler) -> U64Answer
    ensures { result ≡ flat_bool (is_positive_from (greatest_of (scheduler_at s) OperationType.Read)) }
{
    flat_bool(scheduler(s).is_nonempty())
}

pub fn stripring_scheduler_is_nonfull(s: Scheduler) -> U64Answer
    ensures { result ≡ flat_bool (is_positive_from (greatest_of (scheduler_at s) OperationType.Write)) }
{
    flat_bool(scheduler(s).is_nonfull())
}
