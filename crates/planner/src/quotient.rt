// Quotients without a divider, which a camera's core lacks: a bit at a time, by halving and subtracting.
ghost use Rattle.std.specs.Prelude.{◌≡◌, ◌*◌, ◌/◌, ◌%◌, ◌^◌, ◌≤◌, ◌<◌};

// The quotients are below it; an image has fewer rows.
pub(crate) const RANGE: u64 = 1 << 16;

#[derive(Clone, Copy)]
pub(crate) struct Division {
    pub quotient: u64,
    pub remainder: u64,
}

// `part` is the divisor times a bit's weight: the bit is set where that much remains.
pub(crate) fn divided(n: u64, by: u64) -> Division
    requires { (1 ≤ by) × (by ≤ 2 ^ 20) × (n < by * 2 ^ 16) }
    ensures { (result.quotient ≡ n / by) × (result.remainder ≡ n % by) }
{
    let mut quotient = 0;
    let mut remainder = n;
    let mut part = by * RANGE;
    // `while`: no turn is counted, `part` itself tells the last one.
    while part > by {
        part = part / 2;
        quotient = 2 * quotient;
        if remainder >= part {
            remainder -= part;
            quotient += 1;
        }
    }
    Division {
        quotient,
        remainder,
    }
}
