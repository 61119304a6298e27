// A difference as three numbers, and back.
ghost use Rattle.std.specs.Prelude.{◌≡◌};
ghost use Rattle.flat.specs.Diff.{diff_at, flat_diff};

use crate::structs::Diff;

// A flag beside two values: the C interface.
#[tactic(auto, unfolding(crate::specs::Diff::diff_at))]
pub fn diff(d: Diff) -> sched::Diff
    ensures { result ≡ diff_at d }
{
    match d.different {
        0 => sched::Diff::Same(d.old),
        _ => sched::Diff::Different(d.old, d.new),
    }
}

pub fn flat_diff(d: sched::Diff) -> Diff
    ensures { result ≡ flat_diff d }
{
    match d {
        sched::Diff::Same(v) => Diff {
            different: 0,
            old: v,
            new: v,
        },
        sched::Diff::Different(old, new) => Diff {
            different: 1,
            old,
            new,
        },
    }
}
