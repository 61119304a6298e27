// Whether two values are the same or different.
ghost use Rattle.std.specs.Prelude.{◌≡◌};
ghost use Rattle.operations.specs.Diff.{diff_of, is_same_of, is_different_of, old_value_of, new_value_of};

#[derive(Clone, Copy)]
pub enum Diff {
    Same(u64),
    Different(u64, u64),
}

impl Diff {
    pub fn new(old: u64, new: u64) -> Diff
        ensures { result ≡ diff_of old new }
    {
        if old == new {
            return Diff::Same(old);
        }
        Diff::Different(old, new)
    }

    pub fn is_same(self) -> bool
        ensures { result ≡ is_same_of self }
    {
        matches!(self, Diff::Same(_))
    }

    pub fn is_different(self) -> bool
        ensures { result ≡ is_different_of self }
    {
        matches!(self, Diff::Different(_, _))
    }

    pub fn old_value(self) -> u64
        ensures { result ≡ old_value_of self }
    {
        match self {
            Diff::Same(old) | Diff::Different(old, _) => old,
        }
    }

    pub fn new_value(self) -> u64
        ensures { result ≡ new_value_of self }
    {
        match self {
            Diff::Same(new) | Diff::Different(_, new) => new,
        }
    }
}
