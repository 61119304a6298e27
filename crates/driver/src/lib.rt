// The receiver's calls over a whole run of the socket's answers: one after the other is handed to the call in progress.
#![tactic(auto)]

mod drive;
mod run;

pub use drive::{Driven, fetch};
pub use run::{read_with_fds, read_with_fds_impl, service_chunk_acknowledgements, shutdown};
