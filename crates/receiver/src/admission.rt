// The tests before every call of the receiver: 1 to 5 and 20, then 9 where the ring is looked at, then 12 with place 0.
ghost use Rattle.std.specs.Prelude.{◌≡◌, OnOk};
ghost use Rattle.sched.specs.Scheduler.{IsSound};
ghost use Rattle.receiver.specs.Admission.{admission_of};

use crate::call::Call;
use crate::receiver::ReceiverState;
use copies::demand_ring_memory;
use sched::Sound;
use states::Refusal;
use std::marker::Model;

// A record that passed the tests, as a type: its scheduler is not tested again. A clause sees the record.
#[derive(Clone, Copy)]
pub(crate) struct Admitted {
    pub(crate) receiver: ReceiverState,
}

impl Model for Admitted {
    ghost use Rattle.sched.specs.Scheduler.{IsSound};
    ghost use Rattle.receiver.specs.declared.receiver.ReceiverState.{ReceiverState};

    ghost Value = { ReceiverState };

    ghost view = { λ a. a.receiver };

    ghost invariant = { λ a. IsSound a.receiver.scheduler };

    ghost inverse = { λ q. record { receiver = q } };
}

// A call in progress over such a record, and a clause sees the call.
#[derive(Clone, Copy)]
pub(crate) struct AdmittedCall {
    pub(crate) call: Call,
}

impl Model for AdmittedCall {
    ghost use Rattle.sched.specs.Scheduler.{IsSound};
    ghost use Rattle.receiver.specs.declared.call.Call.{Call};

    ghost Value = { Call };

    ghost view = { λ a. a.call };

    ghost invariant = { λ a. IsSound a.call.receiver.scheduler };

    ghost inverse = { λ c. record { call = c } };
}

impl Admitted {
    pub(crate) fn scheduler(self) -> Sound
        ensures { result ≡ self.scheduler }
    {
        Sound {
            scheduler: self.receiver.scheduler,
        }
    }
}

impl ReceiverState {
    pub(crate) fn admit(self, memory: Option<usize>) -> Result<(), Refusal>
        ensures value { result ≡ admission_of self memory }
        ensures sound { OnOk result (IsSound self.scheduler) }
    {
        match memory {
            Some(n) => demand_ring_memory(self.scheduler, n)?,
            None => self.scheduler.demand_soundness()?,
        };
        if !self.state.fits() {
            return Err(Refusal::Misfit { place: 0 });
        }
        Ok(())
    }
}
