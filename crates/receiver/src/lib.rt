// The receiver of a stream of chunks: the port of rosenpass's receiver.rs, without input and output. A call in progress is a value: a
// host begins one, does what it waits for, and hands in the answer. `driver` hands in a whole run of answers at once.
#![tactic(auto)]

mod admission;
mod announcement;
mod call;
mod going;
mod read;
mod receiver;

pub use call::{Call, Ending, Phase, Wanted};
pub use receiver::{Beside, Came, Ended, Outcome, ReceiverState};
