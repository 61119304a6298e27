// The states of the receiver of a stream, the failures in them, the socket's answers, and why a call refuses.
#![tactic(auto)]

mod answer;
mod refusal;
mod state;

pub use answer::{Answer, Received, Sent, Shut, batch_of};
pub use refusal::Refusal;
pub use state::{Failure, OperationalState, Overflow, Violation};
