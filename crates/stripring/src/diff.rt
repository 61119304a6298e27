// The calls of a difference: by the case, and not by the values.
ghost use Rattle.std.specs.Prelude.{◌≡◌};
ghost use Rattle.operations.specs.Diff.{diff_of, is_same_of, is_different_of, old_value_of, new_value_of};
ghost use Rattle.flat.specs.Diff.{diff_at, flat_diff};

use flat::diff::{diff, flat_diff};
use flat::structs::Diff;

pub fn stripring_diff_new(old: u64, new: u64) -> Diff
    ensures { result ≡ flat_diff (diff_of old new) }
{
    flat_diff(sched::Diff::new(old, new))
}

pub fn stripring_diff_is_same(d: Diff) -> bool
    ensures { result ≡ is_same_of (diff_at d) }
{
    diff(d).is_same()
}

pub fn stripring_diff_is_different(d: Diff) -> bool
    ensures { result ≡ is_different_of (diff_at d) }
{
    diff(d).is_different()
}

pub fn stripring_diff_old_value(d: Diff) -> u64
    ensures { result ≡ old_value_of (diff_at d) }
{
    diff(d).old_value()
}

pub fn stripring_diff_new_value(d: Diff) -> u64
    ensures { result ≡ new_value_of (diff_at d) }
{
    diff(d).new_value()
}
