// The calls of the scheduler that lay the ring out and schedule. Every one tests the scheduler that it is given anew.
// Kinds are numbers, and the parameters come one by one: the C interface.
ghost use Rattle.std.specs.Prelude.{◌≡◌};
ghost use Rattle.sched.specs.Scheduler.{layout_of, blocks_of, block0_from, block1_from, block2_from, off_from, len_from, next_block_of, next_of, schedule_of};
ghost use Rattle.flat.specs.Block.{flat_block_answer, flat_blocks, flat_layout};
ghost use Rattle.flat.specs.Counter.{flat_offset, flat_amount};
ghost use Rattle.flat.specs.List.{flat_schedule};
ghost use Rattle.flat.specs.Operation.{type_at, flat_next};
ghost use Rattle.flat.specs.Scheduler.{scheduler_at};

use flat::structs::{BlockAnswer, BlocksAnswer, NextAnswer, ScheduleAnswer, Scheduler, U64Answer};
use sched::OperationType;

// ---- layout and blocks

#[unsafe(no_mangle)]
pub extern "C" fn stripring_scheduler_layout(scheduler: Scheduler) -> U64Answer
    ensures { result ≡ flat_layout (layout_of (scheduler_at scheduler)) }
{
    stripring::schedule::stripring_scheduler_layout(scheduler)
}

#[unsafe(no_mangle)]
pub extern "C" fn stripring_scheduler_blocks(scheduler: Scheduler) -> BlocksAnswer
    ensures { result ≡ flat_blocks (blocks_of (scheduler_at scheduler)) }
{
    stripring::schedule::stripring_scheduler_blocks(scheduler)
}

#[unsafe(no_mangle)]
pub extern "C" fn stripring_scheduler_block_0(scheduler: Scheduler) -> BlockAnswer
    ensures { result ≡ flat_block_answer (block0_from (blocks_of (scheduler_at scheduler))) }
{
    stripring::schedule::stripring_scheduler_block_0(scheduler)
}

#[unsafe(no_mangle)]
pub extern "C" fn stripring_scheduler_block_1(scheduler: Scheduler) -> BlockAnswer
    ensures { result ≡ flat_block_answer (block1_from (blocks_of (scheduler_at scheduler))) }
{
    stripring::schedule::stripring_scheduler_block_1(scheduler)
}

#[unsafe(no_mangle)]
pub extern "C" fn stripring_scheduler_block_2(scheduler: Scheduler) -> BlockAnswer
    ensures { result ≡ flat_block_answer (block2_from (blocks_of (scheduler_at scheduler))) }
{
    stripring::schedule::stripring_scheduler_block_2(scheduler)
}

#[unsafe(no_mangle)]
pub extern "C" fn stripring_scheduler_block_0_off(scheduler: Scheduler) -> U64Answer
    ensures { result ≡ flat_offset (off_from (block0_from (blocks_of (scheduler_at scheduler)))) }
{
    stripring::schedule::stripring_scheduler_block_0_off(scheduler)
}

#[unsafe(no_mangle)]
pub extern "C" fn stripring_scheduler_block_1_off(scheduler: Scheduler) -> U64Answer
    ensures { result ≡ flat_offset (off_from (block1_from (blocks_of (scheduler_at scheduler)))) }
{
    stripring::schedule::stripring_scheduler_block_1_off(scheduler)
}

#[unsafe(no_mangle)]
pub extern "C" fn stripring_scheduler_block_2_off(scheduler: Scheduler) -> U64Answer
    ensures { result ≡ flat_offset (off_from (block2_from (blocks_of (scheduler_at scheduler)))) }
{
    stripring::schedule::stripring_scheduler_block_2_off(scheduler)
}

#[unsafe(no_mangle)]
pub extern "C" fn stripring_scheduler_block_0_len(scheduler: Scheduler) -> U64Answer
    ensures { result ≡ flat_amount (len_from (block0_from (blocks_of (scheduler_at scheduler)))) }
{
    stripring::schedule::stripring_scheduler_block_0_len(scheduler)
}

#[unsafe(no_mangle)]
pub extern "C" fn stripring_scheduler_block_1_len(scheduler: Scheduler) -> U64Answer
    ensures { result ≡ flat_amount (len_from (block1_from (blocks_of (scheduler_at scheduler)))) }
{
    stripring::schedule::stripring_scheduler_block_1_len(scheduler)
}

#[unsafe(no_mangle)]
pub extern "C" fn stripring_scheduler_block_2_len(scheduler: Scheduler) -> U64Answer
    ensures { result ≡ flat_amount (len_from (block2_from (blocks_of (scheduler_at scheduler)))) }
{
    stripring::schedule::stripring_scheduler_block_2_len(scheduler)
}

#[unsafe(no_mangle)]
pub extern "C" fn stripring_scheduler_next_operation_block(
    scheduler: Scheduler,
    op_type: u64,
) -> BlockAnswer
    ensures { result ≡ flat_block_answer (next_block_of (scheduler_at scheduler) (type_at op_type)) }
{
    stripring::schedule::stripring_scheduler_next_operation_block(scheduler, op_type)
}

#[unsafe(no_mangle)]
pub extern "C" fn stripring_scheduler_next_read_block(scheduler: Scheduler) -> BlockAnswer
    ensures { result ≡ flat_block_answer (next_block_of (scheduler_at scheduler) OperationType.Read) }
{
    stripring::schedule::stripring_scheduler_next_read_block(scheduler)
}

#[unsafe(no_mangle)]
pub extern "C" fn stripring_scheduler_next_write_block(scheduler: Scheduler) -> BlockAnswer
    ensures { result ≡ flat_block_answer (next_block_of (scheduler_at scheduler) OperationType.Write) }
{
    stripring::schedule::stripring_scheduler_next_write_block(scheduler)
}

// ---- scheduling

#[unsafe(no_mangle)]
pub extern "C" fn stripring_scheduler_schedule_next_contiguous_operation(
    scheduler: Scheduler,
    op_type: u64,
    max_len: u64,
) -> NextAnswer
    ensures { result ≡ flat_next (next_of (scheduler_at scheduler) (type_at op_type) max_len) }
{
    stripring::schedule::stripring_scheduler_schedule_next_contiguous_operation(
        scheduler, op_type, max_len,
    )
}

#[unsafe(no_mangle)]
pub extern "C" fn stripring_scheduler_schedule_next_read(
    scheduler: Scheduler,
    dst_len: u64,
) -> NextAnswer
    ensures { result ≡ flat_next (next_of (scheduler_at scheduler) OperationType.Read dst_len) }
{
    stripring::schedule::stripring_scheduler_schedule_next_read(scheduler, dst_len)
}

#[unsafe(no_mangle)]
pub extern "C" fn stripring_scheduler_schedule_next_write(
    scheduler: Scheduler,
    src_len: u64,
) -> NextAnswer
    ensures { result ≡ flat_next (next_of (scheduler_at scheduler) OperationType.Write src_len) }
{
    stripring::schedule::stripring_scheduler_schedule_next_write(scheduler, src_len)
}

#[unsafe(no_mangle)]
pub extern "C" fn stripring_scheduler_schedule_contiguous_operations(
    scheduler: Scheduler,
    op_type: u64,
    max_len: u64,
) -> ScheduleAnswer
    ensures { result ≡ flat_schedule (schedule_of (scheduler_at scheduler) (type_at op_type) max_len) }
{
    stripring::schedule::stripring_scheduler_schedule_contiguous_operations(
        scheduler, op_type, max_len,
    )
}

#[unsafe(no_mangle)]
pub extern "C" fn stripring_scheduler_schedule_reads(
    scheduler: Scheduler,
    dst_len: u64,
) -> ScheduleAnswer
    ensures { result ≡ flat_schedule (schedule_of (scheduler_at scheduler) OperationType.Read dst_len) }
{
    stripring::schedule::stripring_scheduler_schedule_reads(scheduler, dst_len)
}

#[unsafe(no_mangle)]
pub extern "C" fn stripring_scheduler_schedule_writes(
    scheduler: Scheduler,
    src_len: u64,
) -> ScheduleAnswer
    ensures { result ≡ flat_schedule (schedule_of (scheduler_at scheduler) OperationType.Write src_len) }
{
    stripring::schedule::stripring_scheduler_schedule_writes(scheduler, src_len)
}
