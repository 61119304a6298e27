// What a copy by value answers: the scheduler after it, how many bytes were moved and how many left over.
// An answer is a struct of C with fields of its own (the C interface): a `match` for each.
ghost use Rattle.std.specs.Prelude.{◌≡◌};
ghost use Rattle.flat.specs.Copy.{flat_copied};

use crate::refusal::flat_copy_refusal;
use crate::scheduler::flat_scheduler;
use crate::structs::CopyAnswer;
use copies::Copied;

pub fn flat_copied(a: Result<Copied, copies::Refusal>) -> CopyAnswer
    ensures { result ≡ flat_copied a }
{
    match a {
        Ok(Copied { scheduler, portion }) => CopyAnswer {
            scheduler: flat_scheduler(scheduler),
            n: portion.len,
            remainder: portion.remainder,
            ..Default::default()
        },
        Err(e) => CopyAnswer {
            refusal: flat_copy_refusal(e),
            ..Default::default()
        },
    }
}
