// What an image and a ring must be for a plan to exist: the tests that every call makes first.
ghost use Rattle.std.specs.Prelude.{◌≡◌, IfOk};
ghost use Rattle.planner.specs.Promise.{Fitting};
ghost use Rattle.planner.specs.Sizes.{in_bounds, sizes_of, passed};

use crate::refusal::Refusal;
use sched::{RingBufferScheduler, body_fits};

const MAX_ROWS: u64 = 65535;

const MAX_ROW_BYTES: u64 = 1 << 20;

// An image and a ring that no test refuses.
#[derive(Clone, Copy)]
pub(crate) struct Fit {
    pub rows: u64,
    pub row_bytes: u64,
    pub buf_len: u64,
    pub ghost fits: { Fitting rows row_bytes buf_len },
}

impl Fit {
    // Or the first of 1, 2, 14 and 15.
    #[tactic(auto, unfolding(crate::specs::Sizes::sizes_in))]
    pub(crate) fn try_new(rows: u64, row_bytes: u64, buf_len: u64) -> Result<Fit, Refusal>
        ensures tested { passed result ≡ sizes_of rows row_bytes buf_len }
        ensures same { IfOk result (λ f. (f.rows ≡ rows) × (f.row_bytes ≡ row_bytes) × (f.buf_len ≡ buf_len)) }
    {
        RingBufferScheduler::try_new(buf_len)?;
        if !in_bounds(rows, row_bytes) {
            return Err(Refusal::SizeOutOfBounds { rows, row_bytes });
        }
        if !body_fits(buf_len, row_bytes) {
            return Err(Refusal::NoPlan { row_bytes, buf_len });
        }
        Ok(Fit {
            rows,
            row_bytes,
            buf_len,
        })
    }
}

#[tactic(auto, unfolding(crate::specs::Sizes::in_bounds))]
fn in_bounds(rows: u64, row_bytes: u64) -> bool
    ensures { result ≡ in_bounds rows row_bytes }
{
    (1..=MAX_ROWS).contains(&rows) && (1..=MAX_ROW_BYTES).contains(&row_bytes)
}
