// What an accepted call of the receiver comes to, as numbers, and back.
ghost use Rattle.std.specs.Prelude.{◌≡◌};
ghost use Rattle.flat.specs.Outcome.{came_at, beside_at, outcome_at, flat_came, flat_outcome};

use crate::failure::{failure, flat_failure};
use crate::structs::Outcome;

// A number for a kind: the C interface.
#[tactic(auto, unfolding(crate::specs::Outcome::came_at))]
fn came(o: Outcome) -> receiver::Came
    ensures { result ≡ came_at o }
{
    match o.kind {
        0 => receiver::Came::Read(o.n),
        1 => receiver::Came::Done,
        _ => receiver::Came::Failed(failure(o.failure)),
    }
}

fn beside(o: Outcome) -> receiver::Beside
    ensures { result ≡ beside_at o }
{
    receiver::Beside { fds: o.fds }
}

pub(crate) fn outcome(o: Outcome) -> receiver::Outcome
    ensures { result ≡ outcome_at o }
{
    receiver::Outcome {
        came: came(o),
        beside: beside(o),
    }
}

fn flat_came(came: receiver::Came, beside: receiver::Beside) -> Outcome
    ensures { result ≡ flat_came came beside }
{
    let fds = beside.fds;
    match came {
        receiver::Came::Read(n) => Outcome {
            kind: 0,
            n,
            fds,
            ..Default::default()
        },
        receiver::Came::Done => Outcome {
            kind: 1,
            fds,
            ..Default::default()
        },
        receiver::Came::Failed(f) => Outcome {
            kind: 2,
            fds,
            failure: flat_failure(f),
            ..Default::default()
        },
    }
}

pub(crate) fn flat_outcome(o: receiver::Outcome) -> Outcome
    ensures { result ≡ flat_outcome o }
{
    flat_came(o.came, o.beside)
}
