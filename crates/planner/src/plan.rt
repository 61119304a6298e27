// A plan with the fewest strips, into a lent slice.
ghost use Rattle.std.specs.Prelude.{◌≡◌};
ghost use Rattle.std.proofs.lemmas.List.Edits.{sets};
ghost use Rattle.planner.specs.Strips.{height_of, outline_in};
ghost use Rattle.planner.specs.Plan.{runs_from, proposal, propose_in, propose_of, RoomFor};

use crate::refusal::Refusal;
use crate::sizes::Fit;

// The runs at the front of the plan; the rest of it stays. Too short a plan is refused.
pub fn propose(rows: u64, row_bytes: u64, buf_len: u64, plan: &mut [u64]) -> Result<u64, Refusal>
    ensures { proposal result plan.new ≡ propose_of rows row_bytes buf_len plan.old }
{
    Fit::try_new(rows, row_bytes, buf_len)?.propose(plan)
}

impl Fit {
    #[tactic(auto, using(crate::proofs::StripLaws::begins, crate::proofs::StripLaws::height_some), unfolding(crate::specs::Plan::propose_in))]
    fn propose(self, plan: &mut [u64]) -> Result<u64, Refusal>
        ensures { proposal result plan.new ≡ propose_in self.rows (outline_in self.rows (height_of self.rows self.row_bytes self.buf_len)) plan.old }
    {
        let strips = self.strips();
        let needed = strips.count;
        let lent = (plan.len() / 2) as u64;
        if lent < needed {
            return Err(Refusal::PlanTooShort { needed, lent });
        }
        put_runs(plan, self.rows, strips.height, needed as usize);
        Ok(needed)
    }
}

// Each run begins where the one before ended, and has `height` rows or all that are left. There are `count`, and the rest of the plan stays:
// the slice is the host's, so it is longer than its runs.
#[tactic(auto, using(crate::proofs::LoopLaws::put_run, crate::proofs::LoopLaws::put_end))]
fn put_runs(plan: &mut [u64], rows: u64, height: u64, count: usize)
    requires { RoomFor rows height count plan.old }
    ensures { plan.new ≡ sets plan.old 0 (runs_from height rows 0 count) }
{
    let mut at = 0;
    // By index: after `chunks_exact_mut` a proof knows the plan's length and none of its numbers.
    for run in 0..count {
        plan[2 * run] = at;
        plan[2 * run + 1] = height.min(rows - at);
        at += height;
    }
}
