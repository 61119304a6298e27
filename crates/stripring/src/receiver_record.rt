// A receiver that is made new.
ghost use Rattle.std.specs.Prelude.{◌≡◌};
ghost use Rattle.receiver.specs.Receiver.{receiver_of};
ghost use Rattle.flat.specs.Receiver.{flat_receiver_answer};
ghost use Rattle.flat.specs.Scheduler.{scheduler_at};

use flat::receiver_record::flat_receiver_answer;
use flat::scheduler::scheduler;
use flat::structs::{ReceiverAnswer, Scheduler};
use receiver::ReceiverState;

pub fn stripring_receiver_new(s: Scheduler) -> ReceiverAnswer
    ensures { result ≡ flat_receiver_answer (receiver_of (scheduler_at s)) }
{
    flat_receiver_answer(ReceiverState::new(scheduler(s)))
}
