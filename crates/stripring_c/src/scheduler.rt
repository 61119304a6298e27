// The calls of the scheduler that make it, count and register. Every one tests the scheduler that it is given anew.
// Kinds are numbers, and the parameters come one by one: the C interface.
ghost use Rattle.std.specs.Prelude.{◌≡◌, ◌^◌};
ghost use Rattle.sched.specs.Scheduler.{scheduler_of, sound_of, with_counter_of, buf_len_of, counter_answer_of, offset_answer_of, greatest_of, is_zero_from, is_positive_from, fill_state_of, register_of, register_list_of};
ghost use Rattle.flat.specs.Block.{flat_fill_state};
ghost use Rattle.flat.specs.Counter.{flat_counter, flat_offset, flat_amount, flat_bool};
ghost use Rattle.flat.specs.List.{operations_at};
ghost use Rattle.flat.specs.Operation.{type_at, operation_at};
ghost use Rattle.flat.specs.Scheduler.{scheduler_at, flat_checked};

use flat::structs::{Operation, Operations, Scheduler, SchedulerAnswer, U64Answer};
use sched::OperationType;

// ---- making one

#[unsafe(no_mangle)]
pub extern "C" fn stripring_scheduler_max_buf_len() -> u64
    ensures { result ≡ 2 ^ 63 }
{
    stripring::scheduler::stripring_scheduler_max_buf_len()
}

#[unsafe(no_mangle)]
pub extern "C" fn stripring_scheduler_try_new(buf_len: u64) -> SchedulerAnswer
    ensures { result ≡ flat_checked (sound_of (scheduler_of buf_len (record { 0 = 0 }) (record { 0 = 0 }))) }
{
    stripring::scheduler::stripring_scheduler_try_new(buf_len)
}

#[unsafe(no_mangle)]
pub extern "C" fn stripring_scheduler_try_from_counters(
    buf_len: u64,
    items_written: u64,
    items_read: u64,
) -> SchedulerAnswer
    ensures { result ≡ flat_checked (sound_of (scheduler_of buf_len (record { 0 = items_written }) (record { 0 = items_read }))) }
{
    stripring::scheduler::stripring_scheduler_try_from_counters(buf_len, items_written, items_read)
}

#[unsafe(no_mangle)]
pub extern "C" fn stripring_scheduler_try_with_counter(
    scheduler: Scheduler,
    op_type: u64,
    counter: u64,
) -> SchedulerAnswer
    ensures { result ≡ flat_checked (with_counter_of (scheduler_at scheduler) (type_at op_type) (record { 0 = counter })) }
{
    stripring::scheduler::stripring_scheduler_try_with_counter(scheduler, op_type, counter)
}

#[unsafe(no_mangle)]
pub extern "C" fn stripring_scheduler_demand_soundness(scheduler: Scheduler) -> SchedulerAnswer
    ensures { result ≡ flat_checked (sound_of (scheduler_at scheduler)) }
{
    stripring::scheduler::stripring_scheduler_demand_soundness(scheduler)
}

// ---- registering what was moved

#[unsafe(no_mangle)]
pub extern "C" fn stripring_scheduler_try_register_read(
    scheduler: Scheduler,
    len: u64,
) -> SchedulerAnswer
    ensures { result ≡ flat_checked (register_of (scheduler_at scheduler) OperationType.Read len) }
{
    stripring::scheduler::stripring_scheduler_try_register_read(scheduler, len)
}

#[unsafe(no_mangle)]
pub extern "C" fn stripring_scheduler_try_register_write(
    scheduler: Scheduler,
    len: u64,
) -> SchedulerAnswer
    ensures { result ≡ flat_checked (register_of (scheduler_at scheduler) OperationType.Write len) }
{
    stripring::scheduler::stripring_scheduler_try_register_write(scheduler, len)
}

#[unsafe(no_mangle)]
pub extern "C" fn stripring_scheduler_try_register_operation_manually(
    scheduler: Scheduler,
    op_type: u64,
    len: u64,
) -> SchedulerAnswer
    ensures { result ≡ flat_checked (register_of (scheduler_at scheduler) (type_at op_type) len) }
{
    stripring::scheduler::stripring_scheduler_try_register_operation_manually(
        scheduler, op_type, len,
    )
}

#[unsafe(no_mangle)]
pub extern "C" fn stripring_scheduler_try_register_operation(
    scheduler: Scheduler,
    operation: Operation,
) -> SchedulerAnswer
    ensures { result ≡ flat_checked (register_of (scheduler_at scheduler) (operation_at operation).typ (operation_at operation).len) }
{
    stripring::scheduler::stripring_scheduler_try_register_operation(scheduler, operation)
}

#[unsafe(no_mangle)]
pub extern "C" fn stripring_scheduler_try_register_operations(
    scheduler: Scheduler,
    list: Operations,
) -> SchedulerAnswer
    ensures { result ≡ flat_checked (register_list_of (scheduler_at scheduler) (operations_at list)) }
{
    stripring::scheduler::stripring_scheduler_try_register_operations(scheduler, list)
}

// ---- counters, offsets, data and space

#[unsafe(no_mangle)]
pub extern "C" fn stripring_scheduler_items_read(scheduler: Scheduler) -> U64Answer
    ensures { result ≡ flat_counter (counter_answer_of (scheduler_at scheduler) OperationType.Read) }
{
    stripring::scheduler::stripring_scheduler_items_read(scheduler)
}

#[unsafe(no_mangle)]
pub extern "C" fn stripring_scheduler_items_written(scheduler: Scheduler) -> U64Answer
    ensures { result ≡ flat_counter (counter_answer_of (scheduler_at scheduler) OperationType.Write) }
{
    stripring::scheduler::stripring_scheduler_items_written(scheduler)
}

#[unsafe(no_mangle)]
pub extern "C" fn stripring_scheduler_operation_counter(
    scheduler: Scheduler,
    op_type: u64,
) -> U64Answer
    ensures { result ≡ flat_counter (counter_answer_of (scheduler_at scheduler) (type_at op_type)) }
{
    stripring::scheduler::stripring_scheduler_operation_counter(scheduler, op_type)
}

#[unsafe(no_mangle)]
pub extern "C" fn stripring_scheduler_read_off(scheduler: Scheduler) -> U64Answer
    ensures { result ≡ flat_offset (offset_answer_of (scheduler_at scheduler) OperationType.Read) }
{
    stripring::scheduler::stripring_scheduler_read_off(scheduler)
}

#[unsafe(no_mangle)]
pub extern "C" fn stripring_scheduler_write_off(scheduler: Scheduler) -> U64Answer
    ensures { result ≡ flat_offset (offset_answer_of (scheduler_at scheduler) OperationType.Write) }
{
    stripring::scheduler::stripring_scheduler_write_off(scheduler)
}

#[unsafe(no_mangle)]
pub extern "C" fn stripring_scheduler_operation_offset(
    scheduler: Scheduler,
    op_type: u64,
) -> U64Answer
    ensures { result ≡ flat_offset (offset_answer_of (scheduler_at scheduler) (type_at op_type)) }
{
    stripring::scheduler::stripring_scheduler_operation_offset(scheduler, op_type)
}

#[unsafe(no_mangle)]
pub extern "C" fn stripring_scheduler_buf_len(scheduler: Scheduler) -> U64Answer
    ensures { result ≡ flat_amount (buf_len_of (scheduler_at scheduler)) }
{
    stripring::scheduler::stripring_scheduler_buf_len(scheduler)
}

#[unsafe(no_mangle)]
pub extern "C" fn stripring_scheduler_is_zero_sized(scheduler: Scheduler) -> U64Answer
    ensures { result ≡ flat_bool (is_zero_from (buf_len_of (scheduler_at scheduler))) }
{
    stripring::scheduler::stripring_scheduler_is_zero_sized(scheduler)
}

#[unsafe(no_mangle)]
pub extern "C" fn stripring_scheduler_data_avail(scheduler: Scheduler) -> U64Answer
    ensures { result ≡ flat_amount (greatest_of (scheduler_at scheduler) OperationType.Read) }
{
    stripring::scheduler::stripring_scheduler_data_avail(scheduler)
}

#[unsafe(no_mangle)]
pub extern "C" fn stripring_scheduler_space_avail(scheduler: Scheduler) -> U64Answer
    ensures { result ≡ flat_amount (greatest_of (scheduler_at scheduler) OperationType.Write) }
{
    stripring::scheduler::stripring_scheduler_space_avail(scheduler)
}

#[unsafe(no_mangle)]
pub extern "C" fn stripring_scheduler_max_operation_len(
    scheduler: Scheduler,
    op_type: u64,
) -> U64Answer
    ensures { result ≡ flat_amount (greatest_of (scheduler_at scheduler) (type_at op_type)) }
{
    stripring::scheduler::stripring_scheduler_max_operation_len(scheduler, op_type)
}

#[unsafe(no_mangle)]
pub extern "C" fn stripring_scheduler_fill_state(scheduler: Scheduler) -> U64Answer
    ensures { result ≡ flat_fill_state (fill_state_of (scheduler_at scheduler)) }
{
    stripring::scheduler::stripring_scheduler_fill_state(scheduler)
}

#[unsafe(no_mangle)]
pub extern "C" fn stripring_scheduler_is_empty(scheduler: Scheduler) -> U64Answer
    ensures { result ≡ flat_bool (is_zero_from (greatest_of (scheduler_at scheduler) OperationType.Read)) }
{
    stripring::scheduler::stripring_scheduler_is_empty(scheduler)
}

#[unsafe(no_mangle)]
pub extern "C" fn stripring_scheduler_is_full(scheduler: Scheduler) -> U64Answer
    ensures { result ≡ flat_bool (is_zero_from (greatest_of (scheduler_at scheduler) OperationType.Write)) }
{
    stripring::scheduler::stripring_scheduler_is_full(scheduler)
}

#[unsafe(no_mangle)]
pub extern "C" fn stripring_scheduler_is_nonempty(scheduler: Scheduler) -> U64Answer
    ensures { result ≡ flat_bool (is_positive_from (greatest_of (scheduler_at scheduler) OperationType.Read)) }
{
    stripring::scheduler::stripring_scheduler_is_nonempty(scheduler)
}

#[unsafe(no_mangle)]
pub extern "C" fn stripring_scheduler_is_nonfull(scheduler: Scheduler) -> U64Answer
    ensures { result ≡ flat_bool (is_positive_from (greatest_of (scheduler_at scheduler) OperationType.Write)) }
{
    stripring::scheduler::stripring_scheduler_is_nonfull(scheduler)
}
