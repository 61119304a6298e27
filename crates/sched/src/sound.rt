// A scheduler whose record passed the tests, as a type: what is asked of it tests nothing again. A clause sees the record.
ghost use Rattle.std.specs.Prelude.{◌≡◌};
ghost use Rattle.sched.specs.Scheduler.{sound_of};

use crate::scheduler::{RingBufferScheduler, counted};
use operations::Refusal;
use std::marker::Model;

#[derive(Clone, Copy)]
pub struct Sound {
    pub scheduler: RingBufferScheduler,
}

impl Model for Sound {
    ghost use Rattle.sched.specs.declared.scheduler.RingBufferScheduler.{RingBufferScheduler};
    ghost use Rattle.sched.specs.Scheduler.{IsSound};

    ghost Value = { RingBufferScheduler };

    ghost view = { λ s. s.scheduler };

    ghost invariant = { λ s. IsSound s.scheduler };

    ghost inverse = { λ s. record { scheduler = s } };
}

impl RingBufferScheduler {
    // The first of the refusals 1 to 5 and 20, or the scheduler.
    #[tactic(auto, unfolding(crate::specs::Scheduler::sound_of))]
    pub(crate) fn sound(self) -> Result<Sound, Refusal>
        ensures { result ≡ sound_of self }
    {
        if self.fill != counted(self.buf_len, self.items_written, self.items_read)? {
            return Err(Refusal::HeldFillWrong);
        }
        Ok(Sound { scheduler: self })
    }
}
