// The calls of the scheduler that lay the ring out and schedule. Every one tests the scheduler that it is given anew.
// Kinds are numbers, and the parameters come one by one: the C interface.
ghost use Rattle.std.specs.Prelude.{◌≡◌};
ghost use Rattle.sched.specs.Scheduler.{layout_of, blocks_of, block0_from, block1_from, block2_from, off_from, len_from, next_block_of, next_of, schedule_of};
ghost use Rattle.flat.specs.Block.{flat_block_answer, flat_blocks, flat_layout};
ghost use Rattle.flat.specs.Counter.{flat_offset, flat_amount};
ghost use Rattle.flat.specs.List.{flat_schedule};
ghost use Rattle.flat.specs.Operation.{type_at, flat_next};
ghost use Rattle.flat.specs.Scheduler.{scheduler_at};

use flat::block::{flat_block_answer, flat_blocks, flat_layout};
use flat::counter::{flat_amount, flat_offset};
use flat::list::flat_schedule;
use flat::operation::{flat_next, operation_type};
use flat::scheduler::scheduler;
use flat::structs::{BlockAnswer, BlocksAnswer, NextAnswer, ScheduleAnswer, Scheduler, U64Answer};
use sched::OperationType;

// ---- layout and blocks

pub fn stripring_scheduler_layout(s: Scheduler) -> U64Answer
    ensures { result ≡ flat_layout (layout_of (scheduler_at s)) }
{
    flat_layout(scheduler(s).layout())
}

pub fn stripring_scheduler_blocks(s: Scheduler) -> BlocksAnswer
    ensures { result ≡ flat_blocks (blocks_of (scheduler_at s)) }
{
    flat_blocks(scheduler(s).blocks())
}

pub fn stripring_scheduler_block_0(s: Scheduler) -> BlockAnswer
    ensures { result ≡ flat_block_answer (block0_from (blocks_of (scheduler_at s))) }
{
    flat_block_answer(scheduler(s).block_0())
}

pub fn stripring_scheduler_block_1(s: Scheduler) -> BlockAnswer
    ensures { result ≡ flat_block_answer (block1_from (blocks_of (scheduler_at s))) }
{
    flat_block_answer(scheduler(s).block_1())
}

pub fn stripring_scheduler_block_2(s: Scheduler) -> BlockAnswer
    ensures { result ≡ flat_block_answer (block2_from (blocks_of (scheduler_at s))) }
{
    flat_block_answer(scheduler(s).block_2())
}

pub fn stripring_scheduler_block_0_off(s: Scheduler) -> U64Answer
    ensures { result ≡ flat_offset (off_from (block0_from (blocks_of (scheduler_at s)))) }
{
    flat_offset(scheduler(s).block_0_off())
}

pub fn stripring_scheduler_block_1_off(s: Scheduler) -> U64Answer
    ensures { result ≡ flat_offset (off_from (block1_from (blocks_of (scheduler_at s)))) }
{
    flat_offset(scheduler(s).block_1_off())
}

pub fn stripring_scheduler_block_2_off(s: Scheduler) -> U64Answer
    ensures { result ≡ flat_offset (off_from (block2_from (blocks_of (scheduler_at s)))) }
{
    flat_offset(scheduler(s).block_2_off())
}

pub fn stripring_scheduler_block_0_len(s: Scheduler) -> U64Answer
    ensures { result ≡ flat_amount (len_from (block0_from (blocks_of (scheduler_at s)))) }
{
    flat_amount(scheduler(s).block_0_len())
}

pub fn stripring_scheduler_block_1_len(s: Scheduler) -> U64Answer
    ensures { result ≡ flat_amount (len_from (block1_from (blocks_of (scheduler_at s)))) }
{
    flat_amount(scheduler(s).block_1_len())
}

pub fn stripring_scheduler_block_2_len(s: Scheduler) -> U64Answer
    ensures { result ≡ flat_amount (len_from (block2_from (blocks_of (scheduler_at s)))) }
{
    flat_amount(scheduler(s).block_2_len())
}

pub fn stripring_scheduler_next_operation_block(s: Scheduler, op: u64) -> BlockAnswer
    ensures { result ≡ flat_block_answer (next_block_of (scheduler_at s) (type_at op)) }
{
    flat_block_answer(scheduler(s).next_operation_block(operation_type(op)))
}

pub fn stripring_scheduler_next_read_block(s: Scheduler) -> BlockAnswer
    ensures { result ≡ flat_block_answer (next_block_of (scheduler_at s) OperationType.Read) }
{
    flat_block_answer(scheduler(s).next_read_block())
}

pub fn stripring_scheduler_next_write_block(s: Scheduler) -> BlockAnswer
    ensures { result ≡ flat_block_answer (next_block_of (scheduler_at s) OperationType.Write) }
{
    flat_block_answer(scheduler(s).next_write_block())
}

// ---- scheduling

pub fn stripring_scheduler_schedule_next_contiguous_operation(
    s: Scheduler,
    op: u64,
    max_len: u64,
) -> NextAnswer
    ensures { result ≡ flat_next (next_of (scheduler_at s) (type_at op) max_len) }
{
    flat_next(scheduler(s).schedule_next_contiguous_operation(operation_type(op), max_len))
}

pub fn stripring_scheduler_schedule_next_read(s: Scheduler, dst_len: u64) -> NextAnswer
    ensures { result ≡ flat_next (next_of (scheduler_at s) OperationType.Read dst_len) }
{
    flat_next(scheduler(s).schedule_next_read(dst_len))
}

pub fn stripring_scheduler_schedule_next_write(s: Scheduler, src_len: u64) -> NextAnswer
    ensures { result ≡ flat_next (next_of (scheduler_at s) OperationType.Write src_len) }
{
    flat_next(scheduler(s).schedule_next_write(src_len))
}

pub fn stripring_scheduler_schedule_contiguous_operations(
    s: Scheduler,
    op: u64,
    max_len: u64,
) -> ScheduleAnswer
    ensures { result ≡ flat_schedule (schedule_of (scheduler_at s) (type_at op) max_len) }
{
    flat_schedule(scheduler(s).schedule_contiguous_operations(operation_type(op), max_len))
}

pub fn stripring_scheduler_schedule_reads(s: Scheduler, dst_len: u64) -> ScheduleAnswer
    ensures { result ≡ flat_schedule (schedule_of (scheduler_at s) OperationType.Read dst_len) }
{
    flat_schedule(scheduler(s).schedule_reads(dst_len))
}

pub fn stripring_scheduler_schedule_writes(s: Scheduler, src_len: u64) -> ScheduleAnswer
    ensures { result ≡ flat_schedule (schedule_of (scheduler_at s) OperationType.Write src_len) }
{
    flat_schedule(scheduler(s).schedule_writes(src_len))
}
