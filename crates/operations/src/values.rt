// The values that a refusal carries: at most three numbers, in the paper's order.
ghost use Rattle.std.specs.Prelude.{◌≡◌, [], ◌∷◌};
ghost use Rattle.operations.specs.Refusal.{packed};

// The first `len` of a, b and c; the others are 0. No slice or Vec: a refusal is a value of fixed size, and C has these four numbers.
#[derive(Clone, Copy)]
pub struct Values {
    pub len: u64,
    pub a: u64,
    pub b: u64,
    pub c: u64,
}

impl Values {
    // Beside `one`, `two` and `three`, and no Default: by how many there are.
    pub fn none() -> Values
        ensures { result ≡ packed [] }
    {
        Values {
            len: 0,
            a: 0,
            b: 0,
            c: 0,
        }
    }

    pub fn one(a: u64) -> Values
        ensures { result ≡ packed (a ∷ []) }
    {
        Values {
            len: 1,
            a,
            b: 0,
            c: 0,
        }
    }

    pub fn two(a: u64, b: u64) -> Values
        ensures { result ≡ packed (a ∷ b ∷ []) }
    {
        Values { len: 2, a, b, c: 0 }
    }

    pub fn three(a: u64, b: u64, c: u64) -> Values
        ensures { result ≡ packed (a ∷ b ∷ c ∷ []) }
    {
        Values { len: 3, a, b, c }
    }
}
