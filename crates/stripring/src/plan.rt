// The planner's calls. A plan is lent as numbers, two to a run: its first row, and how many rows it has.
// The parameters come one by one: the C interface.
ghost use Rattle.std.specs.Prelude.{◌≡◌};
ghost use Rattle.planner.specs.Check.{check_of};
ghost use Rattle.planner.specs.Plan.{propose_of};
ghost use Rattle.planner.specs.Strips.{outline_of};
ghost use Rattle.flat.specs.Planner.{flat_outlined, flat_verdict, propose_answer_left, flat_proposal};

use flat::plan::{flat_outlined, flat_proposed, flat_verdict};
use flat::structs::{ProposeAnswer, Refusal, StripsAnswer};
use planner::{check, outline, propose};

pub fn stripring_planner_outline(rows: u64, row_bytes: u64, buf_len: u64) -> StripsAnswer
    ensures { result ≡ flat_outlined (outline_of rows row_bytes buf_len) }
{
    flat_outlined(outline(rows, row_bytes, buf_len))
}

pub fn stripring_planner_propose(
    rows: u64,
    row_bytes: u64,
    buf_len: u64,
    plan: &mut [u64],
) -> ProposeAnswer
    ensures { propose_answer_left result plan.new ≡ flat_proposal (propose_of rows row_bytes buf_len plan.old) }
{
    flat_proposed(propose(rows, row_bytes, buf_len, plan))
}

pub fn stripring_planner_check(rows: u64, row_bytes: u64, buf_len: u64, plan: &[u64]) -> Refusal
    ensures { result ≡ flat_verdict (check_of rows row_bytes buf_len plan.now) }
{
    flat_verdict(check(rows, row_bytes, buf_len, plan))
}
