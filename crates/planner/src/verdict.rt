// Whether a plan from anywhere is one, and if not, which run is the first that is wrong.
ghost use Rattle.std.specs.Prelude.{◌≡◌, ◌≤◌};
ghost use Rattle.planner.specs.Check.{run_of, check_in, check_of};
ghost use Rattle.planner.specs.Strips.{height_of};

use crate::refusal::Refusal;
use crate::sizes::Fit;

// The tests of each run come in the order 16, 17, 18, and 19 behind the last run.
pub fn check(rows: u64, row_bytes: u64, buf_len: u64, plan: &[u64]) -> Result<(), Refusal>
    ensures { result ≡ check_of rows row_bytes buf_len plan.now }
{
    Fit::try_new(rows, row_bytes, buf_len)?.check(plan)
}

impl Fit {
    #[tactic(auto, using(crate::proofs::LoopLaws::run_within, crate::proofs::LoopLaws::check_good, crate::proofs::LoopLaws::check_bad, crate::proofs::LoopLaws::check_left, crate::proofs::LoopLaws::check_end))]
    fn check(self, plan: &[u64]) -> Result<(), Refusal>
        ensures { result ≡ check_in self.rows self.row_bytes self.buf_len plan.now }
    {
        let height = self.height();
        let mut at = 0;
        // By index: a refusal names the run, and a number left over at the plan's end is no run.
        for run in 0..plan.len() / 2 {
            let count = plan[2 * run + 1];
            self.check_run(height, at, run as u64, plan[2 * run], count)?;
            at += count;
        }
        if at < self.rows {
            return Err(Refusal::RowsLeft { reached: at });
        }
        Ok(())
    }

    // The run that is to go on from row `at`. A plan from anywhere holds any numbers: they are compared, and never added.
    #[tactic(auto, using(crate::proofs::StripLaws::height_fits, crate::proofs::StripLaws::height_fits_not), unfolding(crate::specs::Check::past_end, crate::specs::Check::run_of))]
    fn check_run(
        self,
        height: u64,
        at: u64,
        run: u64,
        first: u64,
        count: u64,
    ) -> Result<(), Refusal>
        requires height { height ≡ height_of self.rows self.row_bytes self.buf_len }
        requires within { at ≤ self.rows }
        ensures { result ≡ run_of self.rows self.row_bytes self.buf_len at run first count }
    {
        if count == 0 {
            return Err(Refusal::EmptyRun { run });
        }
        if first != at || count > self.rows - at {
            return Err(Refusal::RunOutOfPlace { run });
        }
        if count > height {
            return Err(Refusal::RunTooLong { run });
        }
        Ok(())
    }
}
