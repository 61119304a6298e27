// The calls of the two-place list. Every one tests the list that it is given anew.
ghost use Rattle.std.specs.Prelude.{◌≡◌};
ghost use Rattle.operations.specs.List.{sound_list_of, cumulative_length_of, cumulative_offsets_of, outside_ranges_of};
ghost use Rattle.flat.specs.Counter.{flat_amount};
ghost use Rattle.flat.specs.List.{operations_at, flat_operations_answer, flat_starts_answer, flat_ranges_answer};

use flat::structs::{Operations, OperationsAnswer, RangesAnswer, StartsAnswer, U64Answer};

#[unsafe(no_mangle)]
pub extern "C" fn stripring_operations_try_new(list: Operations) -> OperationsAnswer
    ensures { result ≡ flat_operations_answer (sound_list_of (operations_at list)) }
{
    stripring::list::stripring_operations_try_new(list)
}

#[unsafe(no_mangle)]
pub extern "C" fn stripring_operations_container(list: Operations) -> OperationsAnswer
    ensures { result ≡ flat_operations_answer (sound_list_of (operations_at list)) }
{
    stripring::list::stripring_operations_container(list)
}

#[unsafe(no_mangle)]
pub extern "C" fn stripring_operations_into_container(list: Operations) -> OperationsAnswer
    ensures { result ≡ flat_operations_answer (sound_list_of (operations_at list)) }
{
    stripring::list::stripring_operations_into_container(list)
}

#[unsafe(no_mangle)]
pub extern "C" fn stripring_operations_cumulative_operation_length(list: Operations) -> U64Answer
    ensures { result ≡ flat_amount (cumulative_length_of (operations_at list)) }
{
    stripring::list::stripring_operations_cumulative_operation_length(list)
}

#[unsafe(no_mangle)]
pub extern "C" fn stripring_operations_with_cumulative_offset(list: Operations) -> StartsAnswer
    ensures { result ≡ flat_starts_answer (cumulative_offsets_of (operations_at list)) }
{
    stripring::list::stripring_operations_with_cumulative_offset(list)
}

#[unsafe(no_mangle)]
pub extern "C" fn stripring_operations_with_outside_buffer_range(list: Operations) -> RangesAnswer
    ensures { result ≡ flat_ranges_answer (outside_ranges_of (operations_at list)) }
{
    stripring::list::stripring_operations_with_outside_buffer_range(list)
}
