// A receiver that is made new.
ghost use Rattle.std.specs.Prelude.{◌≡◌};
ghost use Rattle.receiver.specs.Receiver.{receiver_of};
ghost use Rattle.flat.specs.Receiver.{flat_receiver_answer};
ghost use Rattle.flat.specs.Scheduler.{scheduler_at};

use flat::structs::{ReceiverAnswer, Scheduler};

#[unsafe(no_mangle)]
pub extern "C" fn stripring_receiver_new(scheduler: Scheduler) -> ReceiverAnswer
    ensures { result ≡ flat_receiver_answer (receiver_of (scheduler_at scheduler)) }
{
    stripring::receiver_record::stripring_receiver_new(scheduler)
}
