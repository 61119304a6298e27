// The list of the calls of sched. A line: op, what it takes, its answer; the list's head says more.
use crate::line::{at, behind, ends};
use crate::sched_inputs::{diff_at, list_at, operation_at, scheduler_at};
use stripring::{block, diff, list, operation, schedule, scheduler};

// The table of the calls: a match, since a closure for each call would be found by its op as an arm is. A row: op, where the answer stands
// on the line, the call.
pub fn agrees(line: &[u64]) -> bool {
    let s = scheduler_at(line);
    match at(line, 0) {
        0 => ends(line, 1, scheduler::stripring_scheduler_max_buf_len()),
        1 => ends(line, 2, scheduler::stripring_scheduler_try_new(at(line, 1))),
        2 => ends(
            line,
            4,
            scheduler::stripring_scheduler_try_from_counters(at(line, 1), at(line, 2), at(line, 3)),
        ),
        3 => ends(line, 4, scheduler::stripring_scheduler_demand_soundness(s)),
        4 => ends(line, 4, scheduler::stripring_scheduler_items_read(s)),
        5 => ends(line, 4, scheduler::stripring_scheduler_items_written(s)),
        6 => ends(line, 4, scheduler::stripring_scheduler_read_off(s)),
        7 => ends(line, 4, scheduler::stripring_scheduler_write_off(s)),
        8 => ends(line, 4, scheduler::stripring_scheduler_buf_len(s)),
        9 => ends(line, 4, scheduler::stripring_scheduler_is_zero_sized(s)),
        10 => ends(line, 4, scheduler::stripring_scheduler_data_avail(s)),
        11 => ends(line, 4, scheduler::stripring_scheduler_space_avail(s)),
        12 => ends(line, 4, scheduler::stripring_scheduler_fill_state(s)),
        13 => ends(line, 4, scheduler::stripring_scheduler_is_empty(s)),
        14 => ends(line, 4, scheduler::stripring_scheduler_is_full(s)),
        15 => ends(line, 4, scheduler::stripring_scheduler_is_nonempty(s)),
        16 => ends(line, 4, scheduler::stripring_scheduler_is_nonfull(s)),
        17 => ends(line, 4, schedule::stripring_scheduler_layout(s)),
        18 => ends(line, 4, schedule::stripring_scheduler_block_0_off(s)),
        19 => ends(line, 4, schedule::stripring_scheduler_block_1_off(s)),
        20 => ends(line, 4, schedule::stripring_scheduler_block_2_off(s)),
        21 => ends(line, 4, schedule::stripring_scheduler_block_0_len(s)),
        22 => ends(line, 4, schedule::stripring_scheduler_block_1_len(s)),
        23 => ends(line, 4, schedule::stripring_scheduler_block_2_len(s)),
        24 => ends(line, 4, schedule::stripring_scheduler_block_0(s)),
        25 => ends(line, 4, schedule::stripring_scheduler_block_1(s)),
        26 => ends(line, 4, schedule::stripring_scheduler_block_2(s)),
        27 => ends(line, 4, schedule::stripring_scheduler_blocks(s)),
        28 => ends(line, 4, schedule::stripring_scheduler_next_read_block(s)),
        29 => ends(line, 4, schedule::stripring_scheduler_next_write_block(s)),
        30 => ends(
            line,
            5,
            scheduler::stripring_scheduler_operation_counter(s, at(line, 4)),
        ),
        31 => ends(
            line,
            5,
            scheduler::stripring_scheduler_operation_offset(s, at(line, 4)),
        ),
        32 => ends(
            line,
            5,
            scheduler::stripring_scheduler_max_operation_len(s, at(line, 4)),
        ),
        33 => ends(
            line,
            5,
            schedule::stripring_scheduler_next_operation_block(s, at(line, 4)),
        ),
        34 => ends(
            line,
            5,
            schedule::stripring_scheduler_schedule_next_read(s, at(line, 4)),
        ),
        35 => ends(
            line,
            5,
            schedule::stripring_scheduler_schedule_next_write(s, at(line, 4)),
        ),
        36 => ends(
            line,
            5,
            schedule::stripring_scheduler_schedule_reads(s, at(line, 4)),
        ),
        37 => ends(
            line,
            5,
            schedule::stripring_scheduler_schedule_writes(s, at(line, 4)),
        ),
        38 => ends(
            line,
            5,
            scheduler::stripring_scheduler_try_register_read(s, at(line, 4)),
        ),
        39 => ends(
            line,
            5,
            scheduler::stripring_scheduler_try_register_write(s, at(line, 4)),
        ),
        40 => ends(
            line,
            6,
            schedule::stripring_scheduler_schedule_next_contiguous_operation(
                s,
                at(line, 4),
                at(line, 5),
            ),
        ),
        41 => ends(
            line,
            6,
            schedule::stripring_scheduler_schedule_contiguous_operations(
                s,
                at(line, 4),
                at(line, 5),
            ),
        ),
        42 => ends(
            line,
            6,
            scheduler::stripring_scheduler_try_register_operation_manually(
                s,
                at(line, 4),
                at(line, 5),
            ),
        ),
        43 => ends(
            line,
            7,
            scheduler::stripring_scheduler_try_register_operation(s, operation_at(behind(line, 4))),
        ),
        44 => ends(
            line,
            11,
            scheduler::stripring_scheduler_try_register_operations(s, list_at(behind(line, 4))),
        ),
        45 => ends(
            line,
            8,
            list::stripring_operations_try_new(list_at(behind(line, 1))),
        ),
        46 => ends(
            line,
            8,
            list::stripring_operations_container(list_at(behind(line, 1))),
        ),
        47 => ends(
            line,
            8,
            list::stripring_operations_into_container(list_at(behind(line, 1))),
        ),
        48 => ends(
            line,
            8,
            list::stripring_operations_cumulative_operation_length(list_at(behind(line, 1))),
        ),
        49 => ends(
            line,
            8,
            list::stripring_operations_with_cumulative_offset(list_at(behind(line, 1))),
        ),
        50 => ends(
            line,
            8,
            list::stripring_operations_with_outside_buffer_range(list_at(behind(line, 1))),
        ),
        51 => ends(line, 1, operation::stripring_operation_default()),
        52 => ends(
            line,
            4,
            operation::stripring_operation_new(at(line, 1), at(line, 2), at(line, 3)),
        ),
        53 => ends(
            line,
            5,
            block::stripring_block_new(at(line, 1), at(line, 2), at(line, 3), at(line, 4)),
        ),
        54 => ends(line, 3, diff::stripring_diff_new(at(line, 1), at(line, 2))),
        55 => ends(
            line,
            4,
            u64::from(diff::stripring_diff_is_same(diff_at(behind(line, 1)))),
        ),
        56 => ends(
            line,
            4,
            u64::from(diff::stripring_diff_is_different(diff_at(behind(line, 1)))),
        ),
        57 => ends(
            line,
            4,
            diff::stripring_diff_old_value(diff_at(behind(line, 1))),
        ),
        58 => ends(
            line,
            4,
            diff::stripring_diff_new_value(diff_at(behind(line, 1))),
        ),
        59 => ends(
            line,
            6,
            scheduler::stripring_scheduler_try_with_counter(s, at(line, 4), at(line, 5)),
        ),
        _ => false,
    }
}
