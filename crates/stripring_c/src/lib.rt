// The static library for C and Rust: an export for each function of `stripring`, under its name and with its clauses. Each only calls it.
#![tactic(auto)]

pub mod block;
pub mod call;
pub mod copy;
pub mod diff;
pub mod failure;
pub mod in_place;
pub mod list;
pub mod modulus;
pub mod operation;
pub mod plan;
pub mod reading_end;
pub mod receiver_record;
pub mod receiver_run;
pub mod schedule;
pub mod scheduler;
pub mod state;
pub mod writing_end;
