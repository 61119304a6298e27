// What is done with counters, each below 2L, and offsets, each below L: compares, sums and differences, and no remainder. At a length of
// 2^63 the counters are all of 64 bits: 2L is 0 there, and sums and differences wrap where counters do.
// Each says its bounds itself, which are less than a sound record's: the tests of a record ask for its data before it is known to be sound.
ghost use Rattle.std.specs.Prelude.{◌≡◌, ◌+◌, ◌*◌, ◌%◌, ◌^◌, ◌<◌};
ghost use Rattle.sched.specs.Counter.{offset_of, data_of, later_of};
ghost use Rattle.sched.specs.Scheduler.{Sized};

use operations::{Counter, Offset};

// The greatest counter, 2L - 1, which fits into 64 bits at every length.
pub(crate) fn last_counter(buf_len: u64) -> u64
    requires { Sized buf_len }
    ensures { result + 1 ≡ 2 * buf_len }
{
    buf_len - 1 + buf_len
}

// How far it is once round the counters; 0 at 2^63.
fn doubled(buf_len: u64) -> u64
    ensures { result ≡ (2 * buf_len) % 2 ^ 64 }
{
    buf_len.wrapping_add(buf_len)
}

// The only way from a counter to an offset.
pub(crate) fn offset_of(counter: Counter, buf_len: u64) -> Offset
    requires { counter.0 < 2 * buf_len }
    ensures { result ≡ offset_of buf_len counter }
{
    if counter.0 < buf_len {
        return Offset(counter.0);
    }
    Offset(counter.0 - buf_len)
}

// How many items the one counter is ahead of the other.
pub(crate) fn data_of(items_written: Counter, items_read: Counter, buf_len: u64) -> u64
    requires { Sized buf_len × (items_written.0 < 2 * buf_len) × (items_read.0 < 2 * buf_len) }
    ensures { result ≡ data_of buf_len items_written items_read }
{
    let written = items_written.0;
    let read = items_read.0;
    let ahead = written.wrapping_sub(read);
    if read <= written {
        return ahead;
    }
    ahead.wrapping_add(doubled(buf_len))
}

// The counter n items on. How many are left up to the last counter is compared with n, and not with the sum, which may pass 64 bits.
pub(crate) fn later_of(counter: Counter, buf_len: u64, n: u64) -> Counter
    requires { Sized buf_len × (counter.0 < 2 * buf_len) × (n < 2 * buf_len) }
    ensures { result ≡ later_of buf_len counter n }
{
    let left = last_counter(buf_len) - counter.0;
    let sum = counter.0.wrapping_add(n);
    if n <= left {
        return Counter(sum);
    }
    Counter(sum.wrapping_sub(doubled(buf_len)))
}
