// The face of the libraries for C and Rust: numbers and flat structs in and out, so that any bits of a host's are legal input.
// The modules are public for `replay`, which calls what a host calls.
#![tactic(auto)]

pub mod block;
pub mod call;
pub mod copy;
pub mod diff;
pub mod failure;
pub mod in_place;
pub mod list;
pub mod modulus;
pub mod operation;
pub mod plan;
pub mod reading_end;
pub mod receiver_record;
pub mod receiver_run;
pub mod schedule;
pub mod scheduler;
pub mod state;
pub mod writing_end;
