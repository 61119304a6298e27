// The calls of a difference: by the case, and not by the values.
ghost use Rattle.std.specs.Prelude.{◌≡◌};
ghost use Rattle.operations.specs.Diff.{diff_of, is_same_of, is_different_of, old_value_of, new_value_of};
ghost use Rattle.flat.specs.Diff.{diff_at, flat_diff};

use flat::structs::Diff;

#[unsafe(no_mangle)]
pub extern "C" fn stripring_diff_new(old: u64, new: u64) -> Diff
    ensures { result ≡ flat_diff (diff_of old new) }
{
    stripring::diff::stripring_diff_new(old, new)
}

#[unsafe(no_mangle)]
pub extern "C" fn stripring_diff_is_same(diff: Diff) -> bool
    ensures { result ≡ is_same_of (diff_at diff) }
{
    stripring::diff::stripring_diff_is_same(diff)
}

#[unsafe(no_mangle)]
pub extern "C" fn stripring_diff_is_different(diff: Diff) -> bool
    ensures { result ≡ is_different_of (diff_at diff) }
{
    stripring::diff::stripring_diff_is_different(diff)
}

#[unsafe(no_mangle)]
pub extern "C" fn stripring_diff_old_value(diff: Diff) -> u64
    ensures { result ≡ old_value_of (diff_at diff) }
{
    stripring::diff::stripring_diff_old_value(diff)
}

#[unsafe(no_mangle)]
pub extern "C" fn stripring_diff_new_value(diff: Diff) -> u64
    ensures { result ≡ new_value_of (diff_at diff) }
{
    stripring::diff::stripring_diff_new_value(diff)
}
