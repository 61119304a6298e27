// A plan in three numbers: how many strips, the rows in each, and the rows in the last.
ghost use Rattle.std.specs.Prelude.{◌≡◌, ◌≤◌};
ghost use Rattle.planner.specs.Strips.{height_of, outline_in, outline_of};

use crate::quotient::{RANGE, divided};
use crate::refusal::Refusal;
use crate::sizes::Fit;
use sched::HEADER_LEN;

// Each strip but the last has `height` rows; one strip alone has them too.
#[derive(Clone, Copy)]
pub struct Strips {
    pub count: u64,
    pub height: u64,
    pub last: u64,
}

// The plan that `propose` makes.
pub fn outline(rows: u64, row_bytes: u64, buf_len: u64) -> Result<Strips, Refusal>
    ensures { result ≡ outline_of rows row_bytes buf_len }
{
    Ok(Fit::try_new(rows, row_bytes, buf_len)?.strips())
}

impl Fit {
    // As tall as fits, and no taller than the image: all its rows where RANGE would fit, which are more than it has.
    #[tactic(auto, using(crate::proofs::StripLaws::all_fit))]
    pub(crate) fn height(self) -> u64
        ensures { result ≡ height_of self.rows self.row_bytes self.buf_len }
    {
        let room = self.buf_len - HEADER_LEN;
        if room / RANGE >= self.row_bytes {
            return self.rows;
        }
        self.rows.min(divided(room, self.row_bytes).quotient)
    }

    #[tactic(auto, using(crate::proofs::StripLaws::height_some))]
    pub(crate) fn strips(self) -> Strips
        ensures { result ≡ outline_in self.rows (height_of self.rows self.row_bytes self.buf_len) }
    {
        let height = self.height();
        let before_last = divided(self.rows - 1, height);
        Strips {
            count: before_last.quotient + 1,
            height,
            last: before_last.remainder + 1,
        }
    }
}
